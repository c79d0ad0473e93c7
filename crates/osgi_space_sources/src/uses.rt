//! Whether the sources of used packages agree.

ghost use Rattle.std.specs.Prelude.{◌↔◌, ◌⊎◌, Any, All, IfOk, IsTrue};
ghost use Rattle.osgi_space_sources.specs.computed.Amongst.{IsAmong};
ghost use Rattle.osgi_space_sources.specs.computed.Clashes.{HasWires, IsClash, KeepsUses, KeepsUsesAmong};
ghost use Rattle.osgi_space_sources.specs.computed.Disputes.{AreDisputed, IsDisputed};
ghost use Rattle.osgi_space_sources.specs.declared.given.Given.{Given};
ghost use Rattle.osgi_world.specs.declared.wiring.Wiring.{Wiring};

use crate::among::Among;
use crate::clash::clashes;
use crate::constraints::constraints_between;
use crate::disputed::{Disputed, disputed_packages};
use crate::given::Given;
use crate::space::unwired_of;
use osgi_space_rows::{Import, Rows};
use osgi_world::Wiring;
use std::alloc::{AllocError, Global};

/// Whether one of the packages is disputed.
pub(crate) fn has_disputed(givens: &[Given], disputed: &Disputed) -> bool
    ensures disputed { IsTrue result
        ↔ Any (λ (g : Given). IsDisputed disputed.now g.package) givens.now }
{
    for given in givens {
        if disputed.has(given.package) {
            return true;
        }
    }
    false
}

/// Whether one of the wires is for a disputed package.
fn has_disputed_import(imports: &[Import], disputed: &Disputed) -> bool
    ensures disputed { IsTrue result
        ↔ Any (λ (row : Import). IsDisputed disputed.now row.imported) imports.now }
{
    for row in imports {
        if disputed.has(row.imported) {
            return true;
        }
    }
    false
}

/// Whether one of the wires is for a disputed package, or one of the packages is disputed.
fn sees_disputed(imports: &[Import], givens: &[Given], disputed: &Disputed) -> bool
    ensures disputed { IsTrue result
        ↔ (Any (λ (row : Import). IsDisputed disputed.now row.imported) imports.now
        ⊎ Any (λ (g : Given). IsDisputed disputed.now g.package) givens.now) }
{
    if has_disputed_import(imports, disputed) {
        return true;
    }
    has_disputed(givens, disputed)
}

/// Whether the constraint is violated. Sources are compared only where they may differ: ends of wires have the same source of a
/// package that is not disputed.
fn is_violated(
    alloc: Global,
    rows: &Rows,
    disputed: &Disputed,
    revision: u32,
    pair: Given,
) -> Result<bool, AllocError>
    requires disputed { AreDisputed rows.now disputed.now }
    ensures violated { IfOk result (λ answer. IsTrue answer ↔ IsClash rows.now revision pair) }
{
    if !disputed.may_differ(revision, pair) {
        return Ok(false);
    }
    clashes(alloc, rows, revision, pair)
}

/// Whether the revision violates no constraint in the list: the packages, each with the revision that sees it.
pub fn are_kept(
    alloc: Global,
    rows: &Rows,
    disputed: &Disputed,
    revision: u32,
    pairs: &[Given],
) -> Result<bool, AllocError>
    requires disputed { AreDisputed rows.now disputed.now }
    ensures uses { IfOk result (λ answer. IsTrue answer
        ↔ ¬ Any (IsClash rows.now revision) pairs.now) }
{
    for pair in pairs {
        if is_violated(alloc, rows, disputed, revision, *pair)? {
            return Ok(false);
        }
    }
    Ok(true)
}

/// Whether the revision has a wire for a package or for a required bundle.
pub(crate) fn has_wires(rows: &Rows, revision: u32) -> bool
    ensures wires { IsTrue result ↔ HasWires rows.now revision }
{
    if !rows.imports.of_revision(revision).is_empty() {
        return true;
    }
    !rows.required.of(revision).is_empty()
}

/// Whether no constraint of the revision that comes from these revisions alone is violated. One without wires has all packages
/// from itself, and so agrees with itself.
pub fn keeps_uses(
    alloc: Global,
    rows: &Rows,
    disputed: &Disputed,
    among: Among,
    revision: u32,
) -> Result<bool, AllocError>
    requires disputed { AreDisputed rows.now disputed.now }
    ensures uses { IfOk result (λ answer. IsTrue answer
        ↔ KeepsUsesAmong rows.now (IsAmong among.entry) revision) }
{
    if disputed.is_empty() {
        return Ok(true);
    }
    if !among.has(revision) {
        return Ok(true);
    }
    if !has_wires(rows, revision) {
        return Ok(true);
    }
    let imports = rows.imports.of_revision(revision);
    let givens = unwired_of(alloc, rows, revision)?;
    if !sees_disputed(imports, givens.as_slice(), disputed) {
        return Ok(true);
    }
    let found = constraints_between(alloc, rows, disputed, among, imports, givens.as_slice())?;
    Ok(are_kept(alloc, rows, disputed, revision, found.items())?)
}

/// Whether no constraint of a revision in force is violated.
pub fn all_keep_uses(alloc: Global, rows: &Rows, wirings: &[Wiring]) -> Result<bool, AllocError>
    ensures uses { IfOk result (λ answer. IsTrue answer
        ↔ ¬ Any (λ (g : Wiring). ¬ KeepsUses rows.now g.revision.0) wirings.now) }
{
    let disputed = disputed_packages(alloc, rows)?;
    for wiring in wirings {
        if !keeps_uses(alloc, rows, &disputed, Among::All, wiring.revision.0)? {
            return Ok(false);
        }
    }
    Ok(true)
}
