//! The bundles that a revision reaches along its bundle wires.

ghost use Rattle.std.specs.Prelude.{IfOk, OnOk};
ghost use Rattle.osgi_space_sources.specs.computed.Adds.{Adds, AreExactly};
ghost use Rattle.osgi_space_sources.specs.computed.Reach.{Reach};
ghost use Rattle.osgi_space_rows.specs.Rows.{Reexports, Requires};

use crate::found::Found;
use osgi_space_rows::Rows;
use std::alloc::{AllocError, Global};

/// Adds the bundles that the revision requires.
fn add_required(found: &mut Found<u32>, rows: &Rows, revision: u32) -> Result<(), AllocError>
    ensures added { OnOk result (Adds (Requires rows.now revision) found.old found.new) }
{
    for row in rows.required.of(revision) {
        found.add(row.provider)?;
    }
    Ok(())
}

/// Adds the bundles that the bundle reexports.
fn add_reexported(found: &mut Found<u32>, rows: &Rows, bundle: u32) -> Result<(), AllocError>
    ensures added { OnOk result (Adds (Reexports rows.now bundle) found.old found.new) }
{
    for row in rows.required.of(bundle) {
        if row.reexport {
            found.add(row.provider)?;
        }
    }
    Ok(())
}

/// The bundles that the revision requires, and those that they reexport, and so on.
pub fn reached_bundles(alloc: Global, rows: &Rows, revision: u32) -> Result<Found<u32>, AllocError>
    ensures reached { IfOk result (AreExactly
        (Reach (Requires rows.now revision) (Reexports rows.now))) }
{
    let mut found = Found::new(alloc);
    add_required(&mut found, rows, revision)?;
    let mut next = 0;
    while next < found.len() {
        let bundle = found.items()[next];
        add_reexported(&mut found, rows, bundle)?;
        next += 1;
    }
    Ok(found)
}
