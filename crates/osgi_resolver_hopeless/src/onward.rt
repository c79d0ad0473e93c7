//! Whether the last decision of a search made what is decided hopeless.

ghost use Rattle.std.specs.Prelude.{◌≡◌, ◌↔◌, IfOk, IsTrue, Some};
ghost use Rattle.std.specs.Bool.{Decides};
ghost use Rattle.osgi_base.specs.declared.ids.RevisionId.{RevisionId};
ghost use Rattle.osgi_resolver_search.specs.Before.{IsHopefulBefore};
ghost use Rattle.osgi_resolver_hopeless.specs.computed.Onward.{HasNewRivals, HasTouchedStuck, IsAtOnce, HasSettledReason};
ghost use Rattle.osgi_resolver_hopeless.specs.computed.Reasons.{Reason};
ghost use Rattle.osgi_resolver_hopeless.specs.computed.Rivals.{HasRivals, IsCurrentSingleton};
ghost use Rattle.osgi_resolver_hopeless.specs.computed.Stuck.{AtMember};
ghost use Rattle.osgi_resolver_path.specs.Last.{IsLast};
ghost use Rattle.osgi_resolver_path.specs.Standing.{At};
ghost use Rattle.osgi_resolver_theory.specs.States.{State};
ghost use Rattle.osgi_world.specs.Hopeless.{IsHopeless};

use crate::clashing::has_clash_at;
use crate::hopeless::is_hopeless;
use crate::offer::{has_lost_at, is_new_lost};
use crate::place::known_at;
use crate::rivals::{has_rivals, is_current_singleton};
use crate::settled::reexports_open;
use crate::stuck::is_stuck_by;
use osgi_base::RevisionId;
use osgi_resolver_path::{Last, Path};
use std::alloc::{AllocError, Global};

/// Whether the host of the last decision, or who joined by it, is stuck. Two providers count only of the package that the wire is
/// for that the decision made: there were no two before, where the word before was not hopeless.
fn is_touched_stuck(alloc: Global, path: &Path, last: Last) -> Result<bool, AllocError>
    ensures stuck { IfOk result (λ answer. At path.now (λ P _. IsLast P path.now last
        → IsTrue answer ↔ HasTouchedStuck P path.now last)) }
{
    if is_stuck_by(alloc, path, last.decision.host(), last.wired)? {
        return Ok(true);
    }
    match last.joined {
        Some(member) => Ok(is_stuck_by(alloc, path, member, last.wired)?),
        None => Ok(false),
    }
}

/// Whether the revision, if there is one, is a current singleton.
fn is_singleton(path: &Path, revision: Option<RevisionId>) -> bool
    ensures singleton { IsTrue result ↔ ((r : RevisionId) × (revision ≡ Some r)
        × IsCurrentSingleton path.now.world.known r) }
{
    match revision {
        Some(revision) => is_current_singleton(known_at(path), revision),
        None => false,
    }
}

/// Whether two rivals are in use. True only where it is so, and true wherever one of them is newly in use by the last decision.
fn has_new_rivals(alloc: Global, path: &Path, last: Last) -> Result<bool, AllocError>
    ensures rivals { IfOk result (λ answer. At path.now (λ P D. IsTrue answer → HasRivals P D)) }
    ensures all { IfOk result (λ answer. At path.now (λ P _. HasNewRivals P path.now last
        → IsTrue answer)) }
{
    let joined = is_singleton(path, last.joined);
    let attached = is_singleton(path, last.fragment);
    if !joined && !attached {
        return Ok(false);
    }
    Ok(has_rivals(alloc, path)?)
}

/// Whether the last decision gives a reason by what it touches, newly uses or adds.
fn is_at_once(alloc: Global, path: &Path, last: Last) -> Result<bool, AllocError>
    ensures reason { IfOk result (λ answer. At path.now (λ P D. IsLast P path.now last
        → IsTrue answer → Reason P D)) }
    ensures all { IfOk result (λ answer. At path.now (λ P _. IsLast P path.now last
        → IsAtOnce P path.now last → IsTrue answer)) }
{
    if is_touched_stuck(alloc, path, last)? {
        return Ok(true);
    }
    if has_new_rivals(alloc, path, last)? {
        return Ok(true);
    }
    Ok(is_new_lost(alloc, path, last.wired)?)
}

/// Whether a settled provider that is the host or reaches it does not have on offer what a wire takes, or a constraint of a member
/// that leads to the host, which comes from settled revisions alone and through the host, clashes. It is asked once the host, a
/// member, is decided. Where the host reexports what is not decided, none that reaches it is settled.
fn has_settled_reason(alloc: Global, path: &Path, host: RevisionId) -> Result<bool, AllocError>
    ensures reason { IfOk result (λ answer. AtMember path.now host (λ P D. IsTrue answer
        → Reason P D)) }
    ensures all { IfOk result (λ answer. AtMember path.now host (λ P D. State P D
        → HasSettledReason P path.now host → IsTrue answer)) }
{
    if reexports_open(path, host) {
        return Ok(false);
    }
    if has_lost_at(alloc, path, host)? {
        return Ok(true);
    }
    Ok(has_clash_at(alloc, path, host)?)
}

/// Whether what is decided is hopeless, where it was not before the last decision. It looks only for reasons that this decision
/// can have given; for clashes those members are asked that lead to its host, once this is decided.
pub fn has_become_hopeless(alloc: Global, path: &Path) -> Result<bool, AllocError>
    ensures hopeless { IfOk result (λ b. At path.now (λ P _. IsHopefulBefore P path.now.word
        → Decides b (IsHopeless P path.now.word))) }
{
    let Some(last) = path.last() else {
        return Ok(is_hopeless(alloc, path)?);
    };
    if is_at_once(alloc, path, last)? {
        return Ok(true);
    }
    let host = last.decision.host();
    if !path.is_decided(host) {
        return Ok(false);
    }
    Ok(has_settled_reason(alloc, path, host)?)
}
