//! Whether a constraint that comes from settled revisions alone clashes.

ghost use Rattle.std.specs.Prelude.{◌↔◌, ℕ, IfOk, IsTrue};
ghost use Rattle.osgi_space_sources.specs.computed.Disputes.{AreDisputed};
ghost use Rattle.osgi_resolver_hopeless.specs.computed.Clashing.{HasClash, HasClashAt, IsBroken};
ghost use Rattle.osgi_resolver_hopeless.specs.computed.Open.{AreUnsettled};
ghost use Rattle.osgi_resolver_path.specs.Standing.{At};
ghost use Rattle.osgi_space_rows.specs.Agree.{id};
ghost use Rattle.osgi_world.specs.DueDecisions.{members};
ghost use Rattle.osgi_world.specs.Lists.{In};

use crate::concerned::concerned_by;
use crate::settled::{numbers, unsettled};
use osgi_base::RevisionId;
use osgi_resolver_path::Path;
use osgi_space_rows::Rows;
use osgi_space_sources::{Among, Disputed, RevisionSet, one_breaks_uses};
use std::alloc::{AllocError, Global};

/// Up to so many members are asked for clashes without a look at whom the host concerns,
const FEW_MEMBERS: usize = 6;

/// if all rows have no more than so many wires for packages.
const FEW_WIRES: usize = 16;

/// Whether one of these revisions has a violated constraint that comes from other revisions than the unsettled ones alone.
fn is_one_broken(
    alloc: Global,
    rows: &Rows,
    disputed: &Disputed,
    unsettled: &RevisionSet,
    revisions: &[u32],
) -> Result<bool, AllocError>
    requires disputed { AreDisputed rows.now disputed.now }
    ensures broken { IfOk result (λ answer. IsTrue answer
        ↔ ((n : ℕ) × In n revisions.now × IsBroken rows.now unsettled.now n)) }
{
    let among = Among::AllBut(unsettled);
    Ok(one_breaks_uses(alloc, rows, disputed, among, revisions)?)
}

/// Whether a member's implied constraint that comes from settled revisions alone clashes. True only where it is so, and true
/// wherever the member's number is one of these, which are of members.
fn has_clash_among(
    alloc: Global,
    path: &Path,
    unsettled: &RevisionSet,
    numbers: &[u32],
) -> Result<bool, AllocError>
    requires unsettled { At path.now (λ P D. AreUnsettled P D unsettled.now) }
    ensures clash { IfOk result (λ answer. At path.now (λ P D. ((n : ℕ) → In n numbers.now
        → In (id n) (members P D))
        → IsTrue answer → HasClash P D)) }
    ensures all { IfOk result (λ answer. At path.now (λ P D. (h : HasClash P D)
        → In h.member.0 numbers.now → IsTrue answer)) }
{
    let rows = path.disputed_rows();
    Ok(is_one_broken(
        alloc,
        rows.world_rows().rows(),
        rows.disputed(),
        unsettled,
        numbers,
    )?)
}

/// Whether a member's implied constraint that comes from settled revisions alone clashes.
pub fn has_clash(alloc: Global, path: &Path, unsettled: &RevisionSet) -> Result<bool, AllocError>
    requires unsettled { At path.now (λ P D. AreUnsettled P D unsettled.now) }
    ensures clash { IfOk result (λ answer. At path.now (λ P D. IsTrue answer ↔ HasClash P D)) }
{
    let members = numbers(alloc, path.members())?;
    Ok(has_clash_among(alloc, path, unsettled, members.as_slice())?)
}

/// Whether the members, and all wires for packages in the rows, are so few that to ask all costs no more than to find whom a host
/// concerns. It tells how the question is answered, and no answer depends on it.
fn are_few(path: &Path) -> bool {
    path.members().len() <= FEW_MEMBERS && path.rows().rows().imports.all().len() <= FEW_WIRES
}

/// Whether a member's implied constraint that comes from settled revisions alone clashes. True only where it is so, and true
/// wherever such a member leads to the host, and the constraint comes through it. It is looked for only where a package may have
/// several sources.
pub fn has_clash_at(alloc: Global, path: &Path, host: RevisionId) -> Result<bool, AllocError>
    ensures clash { IfOk result (λ answer. At path.now (λ P D. In host (members P D) → IsTrue answer
        → HasClash P D)) }
    ensures all { IfOk result (λ answer. At path.now (λ P D. In host (members P D)
        → HasClashAt P D host → IsTrue answer)) }
{
    if path.disputed_rows().disputed().is_empty() {
        return Ok(false);
    }
    let unsettled = unsettled(alloc, path)?;
    if are_few(path) {
        return Ok(has_clash(alloc, path, &unsettled)?);
    }
    let asked = concerned_by(alloc, path, &unsettled, host)?;
    Ok(has_clash_among(alloc, path, &unsettled, asked.as_slice())?)
}
