//! Whose file a class is loaded from.

ghost use Rattle.std.specs.Prelude.{IfOk};
ghost use Rattle.osgi_ops.specs.Loading.{IsLoadedBy};

use crate::classes::{package_of, path_of};
use crate::files::first_with;
use crate::searched::searched;
use osgi_base::{RevisionId, Text};
use osgi_wiring::Wirings;
use std::alloc::{AllocError, Global};

/// The revision whose folder has the file from which the class is loaded for a revision, if there is one.
///
/// Where the revision has a wire for the class's package to another revision, that provider's files are searched, then those of its
/// fragments, and no others. Else those of the required bundles' sources of the package, in the order of the wires, the sources of one
/// bundle by rising id, each before its fragments; then the revision's own; then those of its fragments by bundle id. A revision that
/// is not in force has its own files alone, and one that is not known has none.
pub fn load(
    alloc: Global,
    wirings: &Wirings,
    revision: RevisionId,
    class: &Text,
) -> Result<Option<RevisionId>, AllocError>
    ensures loaded { IfOk result (IsLoadedBy wirings.now.world revision class.now) }
{
    // What holds of the world at all times is said where it is asked for.
    let _ = wirings.world();
    let hosts = searched(alloc, wirings, package_of(class.bytes()), revision)?;
    let path = path_of(alloc, class.bytes())?;
    Ok(first_with(wirings, path.as_slice(), hosts.as_slice()))
}
