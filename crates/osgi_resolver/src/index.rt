//! What is kept of a world between resolves.

ghost use Rattle.osgi_resolver.specs.computed.Following.{FollowsWorld};
ghost use Rattle.osgi_world.specs.declared.world.World.{World};

use osgi_candidates::OfferIndex;
use osgi_space::KeptRows;
use std::alloc::Global;

/// What a world offers and the rows of its wirings, as far as they were followed. The world grows at its ends.
#[derive(Drop)]
pub struct Index {
    pub offers: OfferIndex,
    pub rows: KeptRows,
}

impl Index {
    /// Of nothing: it follows each world.
    pub fn new(alloc: Global) -> Index
        ensures follows { (world : World) → FollowsWorld result world }
    {
        Index {
            offers: OfferIndex::new(alloc),
            rows: KeptRows::new(alloc),
        }
    }
}
