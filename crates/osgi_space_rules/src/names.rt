//! Symbolic names, as keys.

ghost use Rattle.std.specs.Prelude.{◌≡◌, IfOk};
ghost use Rattle.osgi_world.specs.Lookups.{symbolic_name};

use osgi_base::{RevisionId, Text};
use osgi_lookup::KnownIndex;
use std::alloc::{AllocError, Global};

/// The symbolic name of a revision; the empty text where it is not known.
pub fn name_of(alloc: Global, known: &KnownIndex, id: RevisionId) -> Result<Text, AllocError>
    ensures name { IfOk result (λ name. name ≡ symbolic_name known.now id) }
{
    match known.revision(id) {
        Some(revision) => Ok(revision.name.copy(alloc)?),
        None => Ok(Text::empty()),
    }
}
