//! The bundles that are reached along wires with reexport, and what they give of a package.

ghost use Rattle.std.specs.Prelude.{◌≡◌, ◌↔◌, ℕ, Contains, IfOk, OnOk, map, nat_eq};
ghost use Rattle.std.specs.List.{filter_map};
ghost use Rattle.indexmap.specs.IndexSet.{insert_all};
ghost use Rattle.osgi_base.specs.declared.ids.RevisionId.{RevisionId};
ghost use Rattle.osgi_loader.specs.computed.Wires.{IsGiven, IsReached, given_by, numbered, reexports};

use crate::givers::given_by;
use crate::lookups::{is_reexport, wires_of};
use crate::wires::is_required;
use indexmap::IndexSet;
use osgi_base::RevisionId;
use osgi_wiring::Wirings;
use std::alloc::{AllocError, Global};

/// Adds these bundles.
fn add_all(found: &mut IndexSet<u32>, bundles: &[u32]) -> Result<(), AllocError>
    ensures added { OnOk result (found.new.keys ≡ insert_all nat_eq found.old.keys bundles.now) }
{
    for bundle in bundles {
        found.insert_full(*bundle)?;
    }
    Ok(())
}

/// Adds the bundles that a bundle reexports.
fn add_reexported(
    found: &mut IndexSet<u32>,
    wirings: &Wirings,
    bundle: u32,
) -> Result<(), AllocError>
    ensures added { OnOk result
        (found.new.keys ≡ insert_all nat_eq found.old.keys (reexports wirings.now.world bundle)) }
{
    for wire in wires_of(wirings, RevisionId(bundle)) {
        if is_required(wirings, wire) && is_reexport(wirings, wire.requirement) {
            found.insert_full(wire.capability.provider.0)?;
        }
    }
    Ok(())
}

/// These bundles, those that they reexport, and so on.
fn reached(alloc: Global, wirings: &Wirings, starts: &[u32]) -> Result<IndexSet<u32>, AllocError>
    ensures reached { IfOk result (λ found.
        (x : ℕ) → Contains found.keys x ↔ IsReached wirings.now.world starts.now x) }
{
    let mut found = IndexSet::new(alloc);
    add_all(&mut found, starts)?;
    for next in 0..usize::MAX {
        let bundles = found.as_slice();
        if next >= bundles.len() {
            return Ok(found);
        }
        let bundle = bundles[next];
        add_reexported(&mut found, wirings, bundle)?;
    }
    // More bundles than places count as out of memory.
    Err(AllocError)
}

/// The numbers of the revisions from which these bundles give the package by their own imports and exports.
fn given_by_these(
    alloc: Global,
    wirings: &Wirings,
    package: &[u8],
    bundles: &[u32],
) -> Result<Vec<u32>, AllocError>
    ensures given { IfOk result (λ numbers.
        numbers.items
        ≡ map (λ (x : RevisionId). x.0)
        (filter_map (λ b. given_by wirings.now.world «package».now (numbered b)) bundles.now)) }
{
    bundles
        .iter()
        .filter_map(|bundle| given_by(wirings, package, RevisionId(*bundle)))
        .map(|from| from.0)
        .collect(alloc)
}

/// The numbers of the revisions from which these bundles, and those that they reexport, give the package; one may stand there
/// several times.
pub fn given(
    alloc: Global,
    wirings: &Wirings,
    package: &[u8],
    starts: &[u32],
) -> Result<Vec<u32>, AllocError>
    ensures given { IfOk result (λ numbers.
        (n : ℕ) → Contains numbers.items n ↔ IsGiven wirings.now.world «package».now starts.now n) }
{
    let bundles = reached(alloc, wirings, starts)?;
    let numbers = given_by_these(alloc, wirings, package, bundles.as_slice())?;
    Ok(numbers)
}
