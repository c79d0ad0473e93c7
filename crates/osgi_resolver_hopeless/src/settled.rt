//! Which revisions are settled.

ghost use Rattle.std.specs.Prelude.{◌↔◌, ℕ, Contains, IfOk, IsTrue};
ghost use Rattle.std.specs.Bool.{Decides};
ghost use Rattle.osgi_resolver_hopeless.specs.computed.Open.{AreUndecided, AreUnsettled, IsOpenReexport, ReexportsOpen};
ghost use Rattle.osgi_resolver_hopeless.specs.computed.Stuck.{AtMember};
ghost use Rattle.osgi_resolver_path.specs.Standing.{At};
ghost use Rattle.osgi_space_rows.specs.Agree.{id};
ghost use Rattle.osgi_world.specs.DueDecisions.{members};
ghost use Rattle.osgi_world.specs.Hopeless.{IsDecided, IsSettled};
ghost use Rattle.osgi_world.specs.Lists.{In};
ghost use Rattle.osgi_world.specs.Partial.{partial};
ghost use Rattle.osgi_world.specs.Wirings.{InForce};

use osgi_base::RevisionId;
use osgi_resolver_path::Path;
use osgi_space_rows::Required;
use osgi_space_sources::{RevisionSet, reached_bundles};
use std::alloc::{AllocError, Global};

/// Whether the revision, which is in force or a member, has no attachment, bundle requirement or import left to decide.
fn is_decided(path: &Path, revision: RevisionId) -> bool
    ensures decided { At path.now (λ P D. InForce (partial P D) revision
        → Decides result (IsDecided P D revision)) }
{
    if path.is_decided(revision) {
        return true;
    }
    path.offers().is_in_force(revision)
}

/// Whether it is so with all of these.
fn are_decided(path: &Path, revisions: &[u32]) -> bool
    ensures decided { At path.now (λ P D. ((n : ℕ) → In n revisions.now
        → InForce (partial P D) (id n))
        → IsTrue result ↔ ((n : ℕ) → In n revisions.now → IsDecided P D (id n))) }
{
    for revision in revisions {
        if !is_decided(path, RevisionId(*revision)) {
            return false;
        }
    }
    true
}

/// Whether it is so with the revision, and with all bundles that it reaches along a bundle wire, and after it along those with
/// reexport.
pub fn is_settled(alloc: Global, path: &Path, revision: RevisionId) -> Result<bool, AllocError>
    ensures settled { IfOk result (λ answer. At path.now (λ P D. InForce (partial P D) revision
        → IsTrue answer ↔ IsSettled P D revision)) }
{
    if !is_decided(path, revision) {
        return Ok(false);
    }
    let rows = path.rows().rows();
    if rows.required.of(revision.0).is_empty() {
        return Ok(true);
    }
    let reached = reached_bundles(alloc, rows, revision.0)?;
    Ok(are_decided(path, reached.items()))
}

/// Whether the row is that of a bundle which is reexported and not decided.
fn is_open_reexport(path: &Path, row: Required) -> bool
    ensures waits { At path.now (λ P D. InForce (partial P D) (id row.provider)
        → IsTrue result ↔ IsOpenReexport P D row) }
{
    if !row.reexport {
        return false;
    }
    !is_decided(path, RevisionId(row.provider))
}

/// Whether the revision, a member, reexports a bundle that is not decided. Then it is not settled, nor is any that reaches it.
pub fn reexports_open(path: &Path, revision: RevisionId) -> bool
    ensures waits { AtMember path.now revision (λ P D. IsTrue result
        ↔ ReexportsOpen P D revision) }
{
    for row in path.rows().rows().required.of(revision.0) {
        if is_open_reexport(path, *row) {
            return true;
        }
    }
    false
}

/// Whether the member has a bundle wire, and is not settled.
fn is_unsettled_by_wire(alloc: Global, path: &Path, member: RevisionId) -> Result<bool, AllocError>
    ensures unsettled { IfOk result (λ answer. At path.now (λ P D. In member (members P D)
        → IsTrue answer → ¬ IsSettled P D member)) }
    ensures decided { IfOk result (λ answer. At path.now (λ P D. In member (members P D)
        → IsDecided P D member → ¬ IsTrue answer → IsSettled P D member)) }
{
    if path.rows().rows().required.of(member.0).is_empty() {
        return Ok(false);
    }
    Ok(!is_settled(alloc, path, member)?)
}

/// The numbers of the revisions.
pub fn numbers(alloc: Global, revisions: &[RevisionId]) -> Result<Vec<u32>, AllocError>
    ensures numbers { IfOk result (λ list. (n : ℕ) → Contains list.items n
        ↔ In (id n) revisions.now) }
{
    let mut numbers = Vec::with_capacity(alloc, revisions.len())?;
    for revision in revisions {
        numbers.push(revision.0)?;
    }
    Ok(numbers)
}

/// The members that are not decided.
fn undecided(alloc: Global, path: &Path) -> Result<RevisionSet, AllocError>
    ensures undecided { IfOk result (λ set. At path.now (λ P D. AreUndecided P D set)) }
{
    let numbers = path.undecided(alloc)?;
    Ok(RevisionSet::of(alloc, numbers)?)
}

/// The members that are not settled: those that are not decided, and those that reach such along bundle wires.
pub fn unsettled(alloc: Global, path: &Path) -> Result<RevisionSet, AllocError>
    ensures unsettled { IfOk result (λ set. At path.now (λ P D. AreUnsettled P D set)) }
{
    let mut set = undecided(alloc, path)?;
    if path.rows().rows().required.all().is_empty() {
        return Ok(set);
    }
    for member in path.members() {
        if is_unsettled_by_wire(alloc, path, *member)? {
            set = set.with(member.0)?;
        }
    }
    Ok(set)
}
