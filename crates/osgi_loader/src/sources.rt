//! The sources of a package for a revision.

ghost use Rattle.std.specs.Prelude.{◌≡◌, ◌≢◌, ◌↔◌, ℕ, [], Contains, IfOk, IsTrue};
ghost use Rattle.std.specs.List.Sorted.{IsStrictlyIncreasing};
ghost use Rattle.osgi_loader.specs.computed.Wires.{IsUnwiredSource, numbered};
ghost use Rattle.osgi_wiring.specs.States.{IsKeptWorld};
ghost use Rattle.osgi_world.specs.Sources.{Sources};

use crate::givers::has_export;
use crate::reach::given;
use crate::wires::{provider_of, required_by};
use osgi_base::{RevisionId, rising};
use osgi_wiring::Wirings;
use std::alloc::{AllocError, Global};

/// The numbers of the revisions from which a revision has the package where it has no wire for it: from those that its required
/// bundles give it from, and from itself where it exports the package. One may stand there several times.
fn unwired(
    alloc: Global,
    wirings: &Wirings,
    package: &[u8],
    revision: RevisionId,
) -> Result<Vec<u32>, AllocError>
    ensures sources { IfOk result (λ numbers.
        (n : ℕ)
        → Contains numbers.items n ↔ IsUnwiredSource wirings.now.world «package».now revision n) }
{
    let starts = required_by(alloc, wirings, revision)?;
    let mut numbers = given(alloc, wirings, package, starts.as_slice())?;
    if has_export(wirings, package, revision) {
        numbers.push(revision.0)?;
    }
    Ok(numbers)
}

/// The numbers of the sources of the package for a revision, rising.
pub fn sources(
    alloc: Global,
    wirings: &Wirings,
    package: &[u8],
    revision: RevisionId,
) -> Result<Vec<u32>, AllocError>
    requires holds { IsKeptWorld wirings.now.world wirings.now.issued }
    ensures rising { IfOk result (λ numbers. IsStrictlyIncreasing numbers.items) }
    ensures sources { IfOk result (λ numbers.
        (n : ℕ)
        → Contains numbers.items n
        ↔ Sources wirings.now.world.known wirings.now.world.wirings revision «package».now
        (numbered n)) }
{
    match provider_of(wirings, package, revision) {
        Some(provider) => Ok(Vec::from_array(alloc, [provider.0])?),
        None => Ok(rising(unwired(alloc, wirings, package, revision)?)),
    }
}

/// Whether these are the same numbers, and some.
pub fn do_share(ours: &[u32], theirs: &[u32]) -> bool
    ensures share { IsTrue result ↔ (ours.now ≢ []) × (ours.now ≡ theirs.now) }
{
    !ours.is_empty() && ours == theirs
}
