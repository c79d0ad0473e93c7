//! Questions about class spaces, by the names of packages.

ghost use Rattle.std.specs.Prelude.{◌↔◌, List, IfOk, map};
ghost use Rattle.std.specs.List.Sorted.{IsStrictlyIncreasing};
ghost use Rattle.osgi_base.specs.declared.ids.RevisionId.{RevisionId};
ghost use Rattle.osgi_space_rows.specs.Worlds.{AreRowsIn};
ghost use Rattle.osgi_world.specs.Lists.{In};
ghost use Rattle.osgi_world.specs.Sources.{Sources};
ghost use Rattle.osgi_world.specs.declared.wiring.Wiring.{Wiring};

use crate::naming::source_ids;
use osgi_base::{List, RevisionId, Text};
use osgi_space_rows::WorldRows;
use osgi_space_sources::sources_of;
use std::alloc::{AllocError, Global};

/// The sources of the package for the revision, rising, in the wirings whose rows these are.
pub fn sources_in(
    alloc: Global,
    rows: &WorldRows,
    revision: RevisionId,
    package: &Text,
) -> Result<List<RevisionId>, AllocError>
    ensures rising { IfOk result (λ list.
        IsStrictlyIncreasing (map (λ (r : RevisionId). r.0) list)) }
    ensures sources { IfOk result (λ list. (W : List Wiring) → AreRowsIn rows.now W
        → (x : RevisionId) → In x list ↔ Sources rows.now.known W revision «package».now x) }
{
    let Some(number) = rows.names().number(package) else {
        return Ok(source_ids(alloc, &[])?);
    };
    let givens = sources_of(alloc, rows.rows(), revision.0, number)?;
    Ok(source_ids(alloc, givens.as_slice())?)
}
