//! Whether two current singletons of one symbolic name are in use.

ghost use Rattle.std.specs.Prelude.{◌≡◌, ◌↔◌, ℕ, Contains, IfOk, OnOk, IsTrue, Some};
ghost use Rattle.osgi_resolver_theory.specs.Checks.{IsNew};
ghost use Rattle.osgi_base.specs.declared.ids.RevisionId.{RevisionId};
ghost use Rattle.osgi_space_sources.specs.computed.Adds.{Adds};
ghost use Rattle.osgi_resolver_hopeless.specs.computed.Onward.{HasNewRivals};
ghost use Rattle.osgi_resolver_path.specs.declared.last.Last.{Last};
ghost use Rattle.osgi_world.specs.Consistency.{AreRivals};
ghost use Rattle.osgi_resolver_hopeless.specs.computed.Rivals.{HasRival, HasRivals, IsCurrentSingleton, IsOther, IsPresent};
ghost use Rattle.osgi_resolver_path.specs.Standing.{At, IsProblemOf};
ghost use Rattle.osgi_space_rows.specs.Agree.{id};
ghost use Rattle.osgi_world.specs.DueDecisions.{fragments_of, members};
ghost use Rattle.osgi_world.specs.Lists.{In};
ghost use Rattle.osgi_world.specs.declared.problem.Problem.{Problem};

use crate::place::known_at;
use osgi_base::RevisionId;
use osgi_lookup::KnownIndex;
use osgi_resolver_path::Path;
use osgi_space_sources::Found;
use std::alloc::{AllocError, Global};

pub fn is_current_singleton(known: &KnownIndex, revision: RevisionId) -> bool
    ensures singleton { IsTrue result ↔ IsCurrentSingleton known.now revision }
{
    known.is_current(revision) && known.is_singleton(revision)
}

/// Whether one of the revisions is a current singleton.
fn has_current_singleton(known: &KnownIndex, revisions: &[RevisionId]) -> bool
    ensures some { IsTrue result ↔ ((r : RevisionId) × In r revisions.now
        × IsCurrentSingleton known.now r) }
{
    for revision in revisions {
        if is_current_singleton(known, *revision) {
            return true;
        }
    }
    false
}

/// Whether a fragment that is attached to one of these members is a current singleton.
fn is_one_attached(alloc: Global, path: &Path, hosts: &[RevisionId]) -> Result<bool, AllocError>
    ensures some { IfOk result (λ answer. At path.now (λ P D. ((m : RevisionId) → In m hosts.now
        → In m (members P D)) → (m r : RevisionId) → In m hosts.now → In r (fragments_of P D m)
        → IsCurrentSingleton path.now.world.known r → IsTrue answer)) }
{
    for host in hosts {
        let fragments = path.fragments(alloc, *host)?;
        if has_current_singleton(known_at(path), fragments.as_slice()) {
            return Ok(true);
        }
    }
    Ok(false)
}

/// Whether a member, or a fragment that is attached to one, is a current singleton.
fn is_one_new(alloc: Global, path: &Path) -> Result<bool, AllocError>
    ensures some { IfOk result (λ answer. At path.now (λ P D. (r : RevisionId) → IsNew P D r
        → IsCurrentSingleton path.now.world.known r → IsTrue answer)) }
{
    let members = path.members();
    if has_current_singleton(known_at(path), members) {
        return Ok(true);
    }
    Ok(is_one_attached(alloc, path, members)?)
}

fn add_all(found: &mut Found<u32>, revisions: &[RevisionId]) -> Result<(), AllocError>
    ensures added { OnOk result (Adds (λ n. In (id n) revisions.now) found.old found.new) }
{
    for revision in revisions {
        found.add(revision.0)?;
    }
    Ok(())
}

/// The members, and the fragments that are attached to them.
fn new_revisions(alloc: Global, path: &Path) -> Result<Found<u32>, AllocError>
    ensures new { IfOk result (λ new. At path.now (λ P D. (n : ℕ) → Contains new n
        ↔ IsNew P D (id n))) }
{
    let members = path.members();
    let mut new = Found::new(alloc);
    add_all(&mut new, members)?;
    for member in members {
        let fragments = path.fragments(alloc, *member)?;
        add_all(&mut new, fragments.as_slice())?;
    }
    Ok(new)
}

/// Whether the revision is in use in the world, or among the new ones.
fn is_present(path: &Path, new: &Found<u32>, revision: RevisionId) -> bool
    ensures present { IsTrue result ↔ IsPresent path.now new.now revision }
{
    if new.has(revision.0) {
        return true;
    }
    path.offers().is_in_use(revision)
}

/// Whether the other one is another current singleton that is present.
fn is_other(path: &Path, new: &Found<u32>, revision: RevisionId, other: RevisionId) -> bool
    ensures other { IsTrue result ↔ IsOther path.now new.now revision other }
{
    if other.0 == revision.0 {
        return false;
    }
    if !is_current_singleton(known_at(path), other) {
        return false;
    }
    is_present(path, new, other)
}

/// Whether another current singleton of the revision's symbolic name is present, where the revision is one.
fn has_rival(path: &Path, new: &Found<u32>, revision: RevisionId) -> bool
    ensures rival { IsTrue result ↔ HasRival path.now new.now revision }
{
    let known = known_at(path);
    if !is_current_singleton(known, revision) {
        return false;
    }
    let Some(says) = known.revision(revision) else {
        return false;
    };
    let named = path.offers().named(&says.name);
    for other in named {
        if is_other(path, new, revision, *other) {
            return true;
        }
    }
    false
}

/// Whether a member, or a fragment that is attached to one, has a rival in use.
pub fn has_any_rivals(alloc: Global, path: &Path) -> Result<bool, AllocError>
    ensures rivals { IfOk result (λ answer. At path.now (λ P D. IsTrue answer ↔ HasRivals P D)) }
{
    if !is_one_new(alloc, path)? {
        return Ok(false);
    }
    let new = new_revisions(alloc, path)?;
    for revision in new.items() {
        if has_rival(path, &new, RevisionId(*revision)) {
            return Ok(true);
        }
    }
    Ok(false)
}

// ---- after one decision more

/// Whether the other revision is another one and a current singleton. It is, wherever it is a rival of the revision.
fn may_be_rival(path: &Path, revision: RevisionId, other: RevisionId) -> bool
    ensures all { AreRivals path.now.world.known revision other → IsTrue result }
{
    if other.0 == revision.0 {
        return false;
    }
    is_current_singleton(known_at(path), other)
}

/// Whether another current singleton of the revision's symbolic name is known. One is, wherever the revision has a rival.
fn may_have_rival(path: &Path, revision: RevisionId) -> bool
    ensures all { (t : RevisionId) → AreRivals path.now.world.known revision t → IsTrue result }
{
    let Some(says) = known_at(path).revision(revision) else {
        return false;
    };
    let named = path.offers().named(&says.name);
    for other in named {
        if may_be_rival(path, revision, *other) {
            return true;
        }
    }
    false
}

/// The same of the revision, if there is one.
fn may_one_have_rival(path: &Path, revision: Option<RevisionId>) -> bool
    ensures all { (r t : RevisionId) → revision ≡ Some r → AreRivals path.now.world.known r t
        → IsTrue result }
{
    match revision {
        Some(revision) => may_have_rival(path, revision),
        None => false,
    }
}

/// Whether two rivals are in use. True only where it is so, and true wherever one of them is newly in use by the last decision:
/// all members are looked at only where what is new has a rival among all revisions that are known.
pub fn has_rivals(alloc: Global, path: &Path) -> Result<bool, AllocError>
    ensures rivals { IfOk result (λ answer. At path.now (λ P D. IsTrue answer → HasRivals P D)) }
    ensures all { IfOk result (λ answer. (P : Problem) (last : Last) → IsProblemOf path.now P
        → HasNewRivals P path.now last → IsTrue answer) }
{
    let Some(last) = path.last() else {
        return Ok(false);
    };
    let joined = may_one_have_rival(path, last.joined);
    let attached = may_one_have_rival(path, last.fragment);
    if !joined && !attached {
        return Ok(false);
    }
    Ok(has_any_rivals(alloc, path)?)
}
