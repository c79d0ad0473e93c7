//! Whom a host that is decided concerns: the members that can clash by it.

ghost use Rattle.std.specs.Prelude.{◌≡◌, ◌⊎◌, ℕ, Any, IfOk, IsTrue, OnOk};
ghost use Rattle.osgi_space_sources.specs.computed.Clashes.{IsClash};
ghost use Rattle.osgi_space_sources.specs.computed.Disputes.{AreDisputed};
ghost use Rattle.osgi_resolver_hopeless.specs.computed.Clashing.{HasClashAt};
ghost use Rattle.osgi_resolver_hopeless.specs.computed.Open.{AreUnsettled};
ghost use Rattle.osgi_resolver_path.specs.Standing.{At};
ghost use Rattle.osgi_space_rows.specs.Agree.{id};
ghost use Rattle.osgi_space_rows.specs.Rows.{imports_of};
ghost use Rattle.osgi_space_rows.specs.declared.rows.Import.{Import};
ghost use Rattle.osgi_world.specs.DueDecisions.{members};
ghost use Rattle.osgi_world.specs.Lists.{In};

use crate::leading::leading_to;
use crate::losing::is_required;
use osgi_base::RevisionId;
use osgi_resolver_path::Path;
use osgi_space_rows::{Import, Rows};
use osgi_space_sources::{Among, Disputed, Given, RevisionSet, are_kept, constraints_from};
use std::alloc::{AllocError, Global};

/// Adds the wire, if it goes to the host.
fn add_import(list: &mut Vec<Import>, row: Import, host: u32) -> Result<(), AllocError>
    ensures kept { OnOk result ((other : Import) → In other list.old.items
        → In other list.new.items) }
    ensures added { OnOk result (row.provider ≡ host → In row list.new.items) }
{
    if row.provider != host {
        return Ok(());
    }
    list.push(row)?;
    Ok(())
}

/// Adds the wires of the revision for packages that go to the host.
fn add_imports(
    list: &mut Vec<Import>,
    rows: &Rows,
    revision: u32,
    host: u32,
) -> Result<(), AllocError>
    ensures kept { OnOk result ((row : Import) → In row list.old.items → In row list.new.items) }
    ensures added { OnOk result ((row : Import) → In row (imports_of rows.now revision)
        → row.provider ≡ host → In row list.new.items) }
{
    for row in rows.imports.of_revision(revision) {
        add_import(list, *row, host)?;
    }
    Ok(())
}

/// The wires of these revisions for packages that go to the host.
fn imports_to(
    alloc: Global,
    rows: &Rows,
    revisions: &[u32],
    host: u32,
) -> Result<Vec<Import>, AllocError>
    ensures imports { IfOk result (λ list. (n : ℕ) (row : Import) → In n revisions.now
        → In row (imports_of rows.now n) → row.provider ≡ host → In row list.items) }
{
    let mut list = Vec::new(alloc);
    for revision in revisions {
        add_imports(&mut list, rows, *revision, host)?;
    }
    Ok(list)
}

/// Whether the revision is the host, or clashes with one of the constraints.
fn is_touched(
    alloc: Global,
    rows: &Rows,
    disputed: &Disputed,
    host: u32,
    pairs: &[Given],
    revision: u32,
) -> Result<bool, AllocError>
    requires disputed { AreDisputed rows.now disputed.now }
    ensures touched { IfOk result (λ answer. (revision ≡ host)
        ⊎ Any (IsClash rows.now revision) pairs.now → IsTrue answer) }
{
    if revision == host {
        return Ok(true);
    }
    Ok(!are_kept(alloc, rows, disputed, revision, pairs)?)
}

/// Adds the revision, if it is so.
fn add_touched(list: &mut Vec<u32>, touched: bool, revision: u32) -> Result<(), AllocError>
    ensures those { OnOk result ((n : ℕ) → In n list.new.items → In n list.old.items
        ⊎ (n ≡ revision)) }
    ensures kept { OnOk result ((n : ℕ) → In n list.old.items → In n list.new.items) }
    ensures added { OnOk result (IsTrue touched → In revision list.new.items) }
{
    if !touched {
        return Ok(());
    }
    list.push(revision)?;
    Ok(())
}

/// The host, and those of these revisions that clash with one of the constraints.
fn clashing(
    alloc: Global,
    rows: &Rows,
    disputed: &Disputed,
    host: u32,
    pairs: &[Given],
    revisions: &[u32],
) -> Result<Vec<u32>, AllocError>
    requires disputed { AreDisputed rows.now disputed.now }
    ensures those { IfOk result (λ list. (n : ℕ) → In n list.items → In n revisions.now) }
    ensures all { IfOk result (λ list. (n : ℕ) → In n revisions.now → (n ≡ host)
        ⊎ Any (IsClash rows.now n) pairs.now → In n list.items) }
{
    let mut list = Vec::new(alloc);
    for revision in revisions {
        let touched = is_touched(alloc, rows, disputed, host, pairs, *revision)?;
        add_touched(&mut list, touched, *revision)?;
    }
    Ok(list)
}

/// Those that lead to the host and can clash by it: where a bundle wire goes to it, all, and else the host, and those that clash
/// with a constraint that follows from an export of the host.
pub fn concerned_by(
    alloc: Global,
    path: &Path,
    unsettled: &RevisionSet,
    host: RevisionId,
) -> Result<Vec<u32>, AllocError>
    requires unsettled { At path.now (λ P D. AreUnsettled P D unsettled.now) }
    ensures members { IfOk result (λ list. At path.now (λ P D. In host (members P D) → (n : ℕ)
        → In n list.items → In (id n) (members P D))) }
    ensures all { IfOk result (λ list. At path.now (λ P D. In host (members P D)
        → (h : HasClashAt P D host) → In h.clash.member.0 list.items)) }
{
    let leading = leading_to(alloc, path, host)?;
    if is_required(path, host) {
        return Ok(leading.into_items());
    }
    let rows = path.disputed_rows();
    let wires = rows.world_rows().rows();
    let imports = imports_to(alloc, wires, leading.items(), host.0)?;
    let among = Among::AllBut(unsettled);
    let through = constraints_from(alloc, wires, among, imports.as_slice(), &[])?;
    Ok(clashing(
        alloc,
        wires,
        rows.disputed(),
        host.0,
        through.items(),
        leading.items(),
    )?)
}
