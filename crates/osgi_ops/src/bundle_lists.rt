//! Lists of bundles by their ids, each bundle once.

ghost use Rattle.std.specs.Prelude.{◌≡◌, Contains, IfOk, map};
ghost use Rattle.osgi_ops.specs.Closures.{Rises};
ghost use Rattle.osgi_ops.specs.Conditions.{AreThose, Falls};
ghost use Rattle.osgi_ops.specs.computed.Numbered.{numbered};

use osgi_base::{BundleId, List, rising};
use std::alloc::{AllocError, Global};

fn bundles_of(alloc: Global, numbers: &[u32]) -> Result<Vec<BundleId>, AllocError>
    ensures bundles { IfOk result (λ list. list.items ≡ map numbered numbers.now) }
{
    numbers
        .iter()
        .map(|number| BundleId(*number))
        .collect(alloc)
}

/// The bundles of these ids, rising.
pub fn those(alloc: Global, numbers: Vec<u32>) -> Result<List<BundleId>, AllocError>
    ensures those { IfOk result (AreThose (λ b. Contains numbers.items b.0) Rises) }
{
    let rising = rising(numbers);
    Ok(List::from(bundles_of(alloc, rising.as_slice())?))
}

/// The bundles of these ids, falling.
pub fn those_falling(alloc: Global, numbers: Vec<u32>) -> Result<List<BundleId>, AllocError>
    ensures those { IfOk result (AreThose (λ b. Contains numbers.items b.0) Falls) }
{
    let mut falling = rising(numbers);
    falling.reverse();
    Ok(List::from(bundles_of(alloc, falling.as_slice())?))
}
