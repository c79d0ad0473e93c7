//! Whether a requirement of a member can get no wire any more.

ghost use Rattle.std.specs.Prelude.{◌≡◌, ◌↔◌, IsTrue};
ghost use Rattle.osgi_resolver_hopeless.specs.computed.Stuck.{AtMember, AreRefused, CannotBeMet, IsOwner, IsRefused, IsUnmet, OwnUnmet};
ghost use Rattle.osgi_resolver_path.specs.Standing.{At};
ghost use Rattle.osgi_world.specs.DueDecisions.{fragments_of, payload};
ghost use Rattle.osgi_world.specs.Lists.{In};

use crate::place::known_at;
use osgi_base::RevisionId;
use osgi_resolver_decisions::DecisionRef;
use osgi_resolver_path::Path;
use osgi_world::{CapRef, ReqRef};

/// Whether the requirement's decision on this capability is made, and is no.
fn is_refused(path: &Path, member: RevisionId, requirement: ReqRef, capability: CapRef) -> bool
    ensures refused { At path.now (λ P D. IsTrue result
        ↔ IsRefused D member requirement capability) }
{
    let pick = DecisionRef::Pick {
        host: member,
        requirement,
        capability,
    };
    match path.value_of(pick) {
        Some(value) => value == 1,
        None => false,
    }
}

/// Whether it is so with each of these capabilities.
fn are_refused(path: &Path, member: RevisionId, requirement: ReqRef, candidates: &[CapRef]) -> bool
    ensures refused { At path.now (λ P D. IsTrue result
        ↔ AreRefused D member requirement candidates.now) }
{
    for capability in candidates {
        if !is_refused(path, member, requirement, *capability) {
            return false;
        }
    }
    true
}

/// Whether the requirement of the member's payload is needed, and can get no wire any more.
pub fn cannot_be_met(path: &Path, member: RevisionId, requirement: ReqRef) -> bool
    ensures unmet { AtMember path.now member (λ P D. In requirement (payload P D member)
        → IsTrue result ↔ CannotBeMet P D member requirement) }
{
    let known = known_at(path);
    if !known.is_needed(requirement) {
        return false;
    }
    let candidates = path.candidates(requirement);
    if candidates.is_empty() {
        return true;
    }
    if !known.is_multiple(requirement) {
        return false;
    }
    are_refused(path, member, requirement, candidates)
}

/// Whether it is so with a requirement of this owner.
fn is_owner_unmet(path: &Path, member: RevisionId, owner: RevisionId) -> bool
    ensures unmet { AtMember path.now member (λ P D. IsOwner P D member owner
        → IsTrue result ↔ OwnUnmet P D member owner) }
{
    if path.is_sure(owner) {
        return false;
    }
    let count = known_at(path).requirement_count(owner) as u32;
    for index in 0..count {
        if cannot_be_met(path, member, ReqRef { owner, index }) {
            return true;
        }
    }
    false
}

/// Whether it is so with a requirement of the member's payload, where these are its fragments.
pub fn is_unmet(path: &Path, member: RevisionId, fragments: &[RevisionId]) -> bool
    ensures unmet { AtMember path.now member (λ P D. fragments.now ≡ fragments_of P D member
        → IsTrue result ↔ IsUnmet P D member) }
{
    if is_owner_unmet(path, member, member) {
        return true;
    }
    for fragment in fragments {
        if is_owner_unmet(path, member, *fragment) {
            return true;
        }
    }
    false
}
