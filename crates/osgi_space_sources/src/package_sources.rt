//! Where a package comes from.

ghost use Rattle.std.specs.Prelude.{◌↔◌, IfOk, OnOk, IsTrue};
ghost use Rattle.osgi_space_sources.specs.computed.Adds.{Adds, AreExactly};
ghost use Rattle.osgi_space_sources.specs.declared.given.Given.{Given};
ghost use Rattle.osgi_space_sources.specs.computed.RowSources.{HasExport, ImportsElsewhere};
ghost use Rattle.osgi_space_sources.specs.computed.Givens.{AttachedExports, IsDirect, IsElsewhere, IsGivenTo, IsProvider, IsSourceOf};
ghost use Rattle.osgi_space_rows.specs.Rows.{OwnExport};

use crate::bundles::reached_bundles;
use crate::given::Given;
use osgi_space_rows::{Import, Rows};
use std::alloc::{AllocError, Global};

fn owns_export(rows: &Rows, owner: u32, package: u32) -> bool
    ensures exports { IsTrue result ↔ OwnExport rows.now owner «package» }
{
    !rows.exports.of(owner, package).is_empty()
}

/// Whether a fragment of the revision exports the package.
fn fragments_export(rows: &Rows, revision: u32, package: u32) -> bool
    ensures exports { IsTrue result ↔ AttachedExports rows.now revision «package» }
{
    for row in rows.attached.of(revision) {
        if owns_export(rows, row.fragment, package) {
            return true;
        }
    }
    false
}

/// Whether the payload of the revision exports the package.
fn has_export(rows: &Rows, revision: u32, package: u32) -> bool
    ensures exports { IsTrue result ↔ HasExport rows.now revision «package» }
{
    owns_export(rows, revision, package) || fragments_export(rows, revision, package)
}

/// Whether the revision has a wire for the package to another revision.
pub fn imports_elsewhere(rows: &Rows, revision: u32, package: u32) -> bool
    ensures elsewhere { IsTrue result ↔ ImportsElsewhere rows.now revision «package» }
{
    for row in rows.imports.of(revision, package) {
        if row.provider != revision {
            return true;
        }
    }
    false
}

/// Adds the other revisions to which the bundle has wires for the package.
fn add_elsewhere(
    givens: &mut Vec<Given>,
    rows: &Rows,
    bundle: u32,
    package: u32,
) -> Result<(), AllocError>
    ensures added { OnOk result (Adds (IsElsewhere rows.now bundle «package»)
        givens.old.items givens.new.items) }
{
    for row in rows.imports.of(bundle, package) {
        if row.provider != bundle {
            givens.push(Given {
                package,
                source: row.provider,
            })?;
        }
    }
    Ok(())
}

/// Adds what a bundle whose payload exports the package gives by its own import and export.
pub fn add_exported(
    givens: &mut Vec<Given>,
    rows: &Rows,
    bundle: u32,
    package: u32,
) -> Result<(), AllocError>
    requires exported { HasExport rows.now bundle «package» }
    ensures added { OnOk result (Adds (IsDirect rows.now bundle «package»)
        givens.old.items givens.new.items) }
{
    if imports_elsewhere(rows, bundle, package) {
        add_elsewhere(givens, rows, bundle, package)?;
    } else {
        givens.push(Given {
            package,
            source: bundle,
        })?;
    }
    Ok(())
}

/// Adds what a bundle gives of the package by its own import and export.
fn add_direct(
    givens: &mut Vec<Given>,
    rows: &Rows,
    bundle: u32,
    package: u32,
) -> Result<(), AllocError>
    ensures added { OnOk result (Adds (IsDirect rows.now bundle «package»)
        givens.old.items givens.new.items) }
{
    if has_export(rows, bundle, package) {
        add_exported(givens, rows, bundle, package)?;
    }
    Ok(())
}

/// Adds the providers of these wires as sources of the package.
fn add_imported(givens: &mut Vec<Given>, imports: &[Import], package: u32) -> Result<(), AllocError>
    ensures added { OnOk result (Adds (IsProvider imports.now «package»)
        givens.old.items givens.new.items) }
{
    for row in imports {
        givens.push(Given {
            package,
            source: row.provider,
        })?;
    }
    Ok(())
}

/// Adds what the revision, and the bundles that it reaches, give of the package by their own imports and exports.
fn add_given(
    alloc: Global,
    givens: &mut Vec<Given>,
    rows: &Rows,
    revision: u32,
    package: u32,
) -> Result<(), AllocError>
    ensures added { OnOk result (Adds (IsGivenTo rows.now revision «package»)
        givens.old.items givens.new.items) }
{
    let reached = reached_bundles(alloc, rows, revision)?;
    for bundle in reached.items() {
        add_direct(givens, rows, *bundle, package)?;
    }
    add_direct(givens, rows, revision, package)?;
    Ok(())
}

/// The sources of the package for the revision.
pub fn sources_of(
    alloc: Global,
    rows: &Rows,
    revision: u32,
    package: u32,
) -> Result<Vec<Given>, AllocError>
    ensures sources { IfOk result (λ givens.
        AreExactly (IsSourceOf rows.now revision «package») givens.items) }
{
    let imports = rows.imports.of(revision, package);
    let mut givens = Vec::with_capacity(alloc, imports.len())?;
    if imports.is_empty() {
        add_given(alloc, &mut givens, rows, revision, package)?;
    } else {
        add_imported(&mut givens, imports, package)?;
    }
    Ok(givens)
}
