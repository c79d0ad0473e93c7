//! The class space of a revision: all packages that it sees, with their sources.

ghost use Rattle.std.specs.Prelude.{IfOk, OnOk};
ghost use Rattle.osgi_space_sources.specs.computed.Adds.{Adds, AreExactly};
ghost use Rattle.osgi_space_sources.specs.computed.Givens.{IsGivenBy, IsGivenByOwner, IsGivenByReached, IsGivenOf, IsSeen, IsUnwired, IsWired};
ghost use Rattle.osgi_space_sources.specs.computed.RowSources.{HasExport, Owns};
ghost use Rattle.osgi_space_sources.specs.declared.given.Given.{Given};

use crate::bundles::reached_bundles;
use crate::given::Given;
use crate::package_sources::add_exported;
use osgi_space_rows::Rows;
use std::alloc::{AllocError, Global};

/// Adds what the bundle gives of a package that its payload exports, unless the revision has a wire for the package.
fn add_unless_imported(
    givens: &mut Vec<Given>,
    rows: &Rows,
    revision: u32,
    bundle: u32,
    package: u32,
) -> Result<(), AllocError>
    requires exported { HasExport rows.now bundle «package» }
    ensures added { OnOk result (Adds (IsGivenOf rows.now revision bundle «package»)
        givens.old.items givens.new.items) }
{
    if rows.imports.of(revision, package).is_empty() {
        add_exported(givens, rows, bundle, package)?;
    }
    Ok(())
}

/// Adds what the bundle gives of the packages that an owner of its payload exports.
fn add_owner(
    givens: &mut Vec<Given>,
    rows: &Rows,
    revision: u32,
    bundle: u32,
    owner: u32,
) -> Result<(), AllocError>
    requires owns { Owns rows.now bundle owner }
    ensures added { OnOk result (Adds (IsGivenByOwner rows.now revision bundle owner)
        givens.old.items givens.new.items) }
{
    for row in rows.exports.of_revision(owner) {
        add_unless_imported(givens, rows, revision, bundle, row.exported)?;
    }
    Ok(())
}

/// Adds what the bundle gives by its own imports and exports, of the packages for which the revision has no wire.
fn add_bundle(
    givens: &mut Vec<Given>,
    rows: &Rows,
    revision: u32,
    bundle: u32,
) -> Result<(), AllocError>
    ensures added { OnOk result (Adds (IsGivenBy rows.now revision bundle)
        givens.old.items givens.new.items) }
{
    add_owner(givens, rows, revision, bundle, bundle)?;
    for row in rows.attached.of(bundle) {
        add_owner(givens, rows, revision, bundle, row.fragment)?;
    }
    Ok(())
}

/// Adds the providers of the revision's wires for packages.
fn add_imports(givens: &mut Vec<Given>, rows: &Rows, revision: u32) -> Result<(), AllocError>
    ensures added { OnOk result (Adds (IsWired rows.now revision)
        givens.old.items givens.new.items) }
{
    for row in rows.imports.of_revision(revision) {
        givens.push(Given {
            package: row.imported,
            source: row.provider,
        })?;
    }
    Ok(())
}

/// Adds what the bundles that the revision reaches give of the packages for which the revision has no wire.
fn add_reached(
    alloc: Global,
    givens: &mut Vec<Given>,
    rows: &Rows,
    revision: u32,
) -> Result<(), AllocError>
    ensures added { OnOk result (Adds (IsGivenByReached rows.now revision)
        givens.old.items givens.new.items) }
{
    if rows.required.of(revision).is_empty() {
        return Ok(());
    }
    let reached = reached_bundles(alloc, rows, revision)?;
    for bundle in reached.items() {
        add_bundle(givens, rows, revision, *bundle)?;
    }
    Ok(())
}

/// What the revision sees of the packages for which it has no wire, with their sources.
pub(crate) fn unwired_of(
    alloc: Global,
    rows: &Rows,
    revision: u32,
) -> Result<Vec<Given>, AllocError>
    ensures sources { IfOk result (λ givens.
        AreExactly (IsUnwired rows.now revision) givens.items) }
{
    let mut givens = Vec::new(alloc);
    add_reached(alloc, &mut givens, rows, revision)?;
    add_bundle(&mut givens, rows, revision, revision)?;
    Ok(givens)
}

/// The packages that the revision sees, with their sources.
pub fn space_of(alloc: Global, rows: &Rows, revision: u32) -> Result<Vec<Given>, AllocError>
    ensures sources { IfOk result (λ givens. AreExactly (IsSeen rows.now revision) givens.items) }
{
    let mut givens = Vec::with_capacity(alloc, rows.imports.of_revision(revision).len())?;
    add_imports(&mut givens, rows, revision)?;
    add_reached(alloc, &mut givens, rows, revision)?;
    add_bundle(&mut givens, rows, revision, revision)?;
    Ok(givens)
}
