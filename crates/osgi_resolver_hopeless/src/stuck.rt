//! Whether a member makes what is decided hopeless by itself.

ghost use Rattle.std.specs.Prelude.{◌≡◌, ◌↔◌, ◌∷◌, [], ◌++◌, IfOk, IsTrue, List, Some};
ghost use Rattle.osgi_resolver_hopeless.specs.computed.Stuck.{AtMember, HasNamesake, IsAmiss, IsAmissBy, CannotBeMet, IsFragmentAmiss, IsNewlyAmiss, IsOtherFragment, IsStuck, IsStuckBy, OtherProvider, SameName, TwoProviders};
ghost use Rattle.osgi_resolver_decisions.specs.DecisionOf.{decision_of};
ghost use Rattle.osgi_resolver_path.specs.Last.{IsLast};
ghost use Rattle.osgi_resolver_path.specs.Standing.{At};
ghost use Rattle.osgi_resolver_path.specs.declared.wired.Wired.{Wired};
ghost use Rattle.osgi_world.specs.Candidates.{candidates};
ghost use Rattle.osgi_world.specs.Decisions.{pick};
ghost use Rattle.osgi_world.specs.Lookups.{is_effective};
ghost use Rattle.osgi_world.specs.Partial.{partial};
ghost use Rattle.osgi_world.specs.DueDecisions.{fragments_of, members, payload};
ghost use Rattle.osgi_world.specs.Lists.{In, Two};
ghost use Rattle.osgi_base.specs.declared.ids.RevisionId.{RevisionId};
ghost use Rattle.osgi_world.specs.declared.wiring.CapRef.{CapRef};

use crate::offer::is_attached;
use crate::place::known_at;
use crate::providers::{has_other_provider, has_two_providers};
use crate::unmet::{cannot_be_met, is_unmet};
use osgi_base::RevisionId;
use osgi_resolver_decisions::DecisionRef;
use osgi_resolver_path::{Last, Path, Wired};
use osgi_space_rules::are_names_single;
use osgi_world::ReqRef;
use std::alloc::{AllocError, Global};

/// Whether two of the fragments have one symbolic name.
fn has_two_versions(
    alloc: Global,
    path: &Path,
    fragments: &[RevisionId],
) -> Result<bool, AllocError>
    ensures two { IfOk result (λ answer. IsTrue answer
        ↔ Two (SameName path.now.world.known) fragments.now) }
{
    Ok(!are_names_single(alloc, known_at(path), fragments)?)
}

/// Whether the member has a requirement that can get no wire any more, or two fragments of one symbolic name.
fn is_amiss(alloc: Global, path: &Path, member: RevisionId) -> Result<bool, AllocError>
    ensures amiss { IfOk result (λ answer. AtMember path.now member (λ P D. IsTrue answer
        ↔ IsAmiss P D member)) }
{
    let fragments = path.fragments(alloc, member)?;
    if is_unmet(path, member, fragments.as_slice()) {
        return Ok(true);
    }
    Ok(has_two_versions(alloc, path, fragments.as_slice())?)
}

/// Whether this wire, if there is one, is one of the member, which has another provider of the same package.
fn has_two_with(path: &Path, member: RevisionId, wired: Option<Wired>) -> bool
    ensures other { At path.now (λ P D. IsTrue result
        ↔ ((w : Wired) × (wired ≡ Some w) × OtherProvider P.world.known (partial P D) member w)) }
{
    match wired {
        Some(wired) => has_other_provider(path.rows(), member, wired),
        None => false,
    }
}

// ---- after one decision more

/// Whether the other revision is another fragment of the member than this one.
fn is_other_fragment(
    path: &Path,
    member: RevisionId,
    fragment: RevisionId,
    other: RevisionId,
) -> bool
    ensures other { AtMember path.now member (λ P D. IsTrue result
        ↔ IsOtherFragment P D member fragment other) }
{
    if other.0 == fragment.0 {
        return false;
    }
    is_attached(path.rows().rows(), member.0, other.0)
}

/// Whether the member has another fragment of this one's symbolic name. It is looked for among all revisions of that name.
fn has_namesake(path: &Path, member: RevisionId, fragment: RevisionId) -> bool
    ensures namesake { AtMember path.now member (λ P D. In fragment (fragments_of P D member)
        → IsTrue result ↔ HasNamesake P D member fragment) }
{
    let Some(says) = known_at(path).revision(fragment) else {
        return false;
    };
    let named = path.offers().named(&says.name);
    for other in named {
        if is_other_fragment(path, member, fragment, *other) {
            return true;
        }
    }
    false
}

/// Whether a requirement of the member's fragment has no candidate, or another fragment of the member has its symbolic name.
fn is_fragment_amiss(path: &Path, member: RevisionId, fragment: RevisionId) -> bool
    ensures amiss { AtMember path.now member (λ P D. In fragment (fragments_of P D member)
        → IsTrue result ↔ IsFragmentAmiss P D member fragment) }
{
    if path.lacks_candidate(fragment) {
        return true;
    }
    has_namesake(path, member, fragment)
}

/// Whether the decision on the fragment has the value yes, and the fragment does not fit.
fn is_attached_amiss(path: &Path, member: RevisionId, fragment: RevisionId, value: u64) -> bool
    ensures amiss { AtMember path.now member (λ P D. (value ≡ 0
        → In fragment (fragments_of P D member))
        → IsTrue result ↔ (value ≡ 0) × In fragment (fragments_of P D member)
        × IsFragmentAmiss P D member fragment) }
{
    if value != 0 {
        return false;
    }
    is_fragment_amiss(path, member, fragment)
}

/// Whether the decision is the one on the last candidate of the member's requirement.
fn is_on_last(path: &Path, decision: DecisionRef, member: RevisionId, requirement: ReqRef) -> bool
    ensures last { AtMember path.now member (λ P D. In requirement (payload P D member)
        → IsTrue (is_effective P.world.known requirement)
        → IsTrue result ↔ ((before : List CapRef) × (c : CapRef)
        × (candidates P requirement ≡ before ++ c ∷ [])
        × (decision_of decision ≡ pick member requirement c))) }
{
    let Some(capability) = path.candidates(requirement).last() else {
        return false;
    };
    decision.is_same(DecisionRef::Pick {
        host: member,
        requirement,
        capability: *capability,
    })
}

/// Whether the last decision, which is on a wire of the requirement, has the value no, and the requirement can get no wire any
/// more. The wires are decided in the order of their candidates, so they are asked only after the decision on the last of these.
fn is_refused_amiss(path: &Path, last: Last, member: RevisionId, requirement: ReqRef) -> bool
    ensures amiss { AtMember path.now member (λ P D. (c : CapRef) → IsLast P path.now last
        → decision_of last.decision ≡ pick member requirement c
        → In requirement (payload P D member)
        → IsTrue result ↔ (last.value ≡ 1) × In requirement (payload P D member)
        × CannotBeMet P D member requirement) }
{
    if last.value != 1 {
        return false;
    }
    if !is_on_last(path, last.decision, member, requirement) {
        return false;
    }
    cannot_be_met(path, member, requirement)
}

/// Whether the last decision attached a fragment to the member that does not fit, or refused it a wire of a requirement that can
/// get none any more.
fn is_amiss_by(path: &Path, last: Last, member: RevisionId) -> bool
    ensures amiss { AtMember path.now member (λ P D. IsLast P path.now last → IsTrue result
        ↔ IsAmissBy P D (decision_of last.decision) last.value member) }
{
    if last.decision.host().0 != member.0 {
        return false;
    }
    match last.decision {
        DecisionRef::Attach { fragment, .. } => {
            is_attached_amiss(path, member, fragment, last.value)
        }
        DecisionRef::Choose { .. } => false,
        DecisionRef::Pick { requirement, .. } => {
            is_refused_amiss(path, last, member, requirement)
        }
    }
}

/// Whether the last decision gave the member a requirement that can get no wire any more, or two fragments of one symbolic name.
/// Where no decision is made, all requirements and fragments are looked at.
fn is_newly_amiss(alloc: Global, path: &Path, member: RevisionId) -> Result<bool, AllocError>
    ensures amiss { IfOk result (λ answer. AtMember path.now member (λ P D. IsTrue answer
        ↔ IsNewlyAmiss P D member)) }
{
    let Some(last) = path.last() else {
        return Ok(is_amiss(alloc, path, member)?);
    };
    if path.lacks_candidate(member) {
        return Ok(true);
    }
    Ok(is_amiss_by(path, last, member))
}

/// Whether the last decision made the member stuck, where it was not before. Two providers count only of the package that this
/// wire, if there is one, is for.
pub fn is_stuck_by(
    alloc: Global,
    path: &Path,
    member: RevisionId,
    wired: Option<Wired>,
) -> Result<bool, AllocError>
    ensures stuck { IfOk result (λ answer. AtMember path.now member (λ P D. IsTrue answer
        ↔ IsStuckBy P D member wired)) }
{
    if is_newly_amiss(alloc, path, member)? {
        return Ok(true);
    }
    Ok(has_two_with(path, member, wired))
}

// ---- of all members

/// Whether one of the members has a requirement that can get no wire any more, or two fragments of one symbolic name.
fn is_one_amiss(alloc: Global, path: &Path) -> Result<bool, AllocError>
    ensures amiss { IfOk result (λ answer. At path.now (λ P D. IsTrue answer
        ↔ ((m : RevisionId) × In m (members P D) × IsAmiss P D m))) }
{
    for member in path.members() {
        if is_amiss(alloc, path, *member)? {
            return Ok(true);
        }
    }
    Ok(false)
}

/// Whether one of the members has two providers of one package.
fn one_has_two_providers(path: &Path) -> bool
    ensures two { At path.now (λ P D. IsTrue result
        ↔ ((m : RevisionId) × In m (members P D) × TwoProviders P.world.known (partial P D) m)) }
{
    for member in path.members() {
        if has_two_providers(path.rows().rows(), member.0) {
            return true;
        }
    }
    false
}

/// Whether one of the members is stuck. What takes all wires of a member to tell is asked last.
pub fn has_stuck_member(alloc: Global, path: &Path) -> Result<bool, AllocError>
    ensures stuck { IfOk result (λ answer. At path.now (λ P D. IsTrue answer
        ↔ ((m : RevisionId) × In m (members P D) × IsStuck P D m))) }
{
    if is_one_amiss(alloc, path)? {
        return Ok(true);
    }
    Ok(one_has_two_providers(path))
}
