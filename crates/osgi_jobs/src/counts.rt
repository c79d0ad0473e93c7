//! How many jobs of each bundle stand in the queue, and how many of these were cleaned.

ghost use Rattle.std.specs.Prelude.{◌≡◌, ◌<◌};
ghost use Rattle.osgi_base.specs.NumberMaps.{Puts};
ghost use Rattle.osgi_jobs.specs.computed.Kept.{counted_in};

use osgi_base::{BundleId, NumberMap};

/// Of a bundle: how many of its jobs stand in the queue, and how many of these were cleaned, which are its oldest.
#[derive(Clone, Copy)]
pub struct BundleCount {
    pub standing: usize,
    pub cleaned: usize,
}

/// Those of a bundle.
pub fn count_of(counts: &NumberMap<BundleCount>, owner: BundleId) -> BundleCount
    ensures counted { result ≡ counted_in counts.now owner.0 }
{
    match counts.get(owner.0) {
        Some(count) => *count,
        None => BundleCount {
            standing: 0,
            cleaned: 0,
        },
    }
}

/// Counts so of a bundle of which a job stands in the queue. It takes no memory.
pub fn recount(counts: &mut NumberMap<BundleCount>, owner: BundleId, count: BundleCount)
    requires known { 0 < (counted_in counts.old owner.0).standing }
    ensures counted { Puts counts.old counts.new owner.0 count }
{
    match counts.get_mut(owner.0) {
        Some(kept) => *kept = count,
        None => unreachable!(),
    }
}
