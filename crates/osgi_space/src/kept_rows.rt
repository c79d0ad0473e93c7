//! The rows of a world that grows, kept from one time to the next.

ghost use Rattle.std.specs.Prelude.{List};
ghost use Rattle.osgi_space.specs.Kept.{FollowsRows};
ghost use Rattle.osgi_world.specs.declared.wiring.Wiring.{Wiring};
ghost use Rattle.osgi_world.specs.declared.world.Known.{Known};

use osgi_space_rows::Named;
use osgi_space_sources::Possible;
use std::alloc::Global;

/// The rows of a world that grows at its ends, as far as they were followed: those of its first so many known revisions and
/// wirings, and the possible sources of packages in them.
#[derive(Drop)]
pub struct KeptRows {
    pub(crate) named: Named,
    pub(crate) possible: Possible,
    pub(crate) known: usize,
    pub(crate) wirings: usize,
}

impl KeptRows {
    /// Of nothing. They follow each world.
    pub fn new(alloc: Global) -> KeptRows
        ensures follows { (K : List Known) (W : List Wiring) → FollowsRows result K W }
    {
        KeptRows {
            named: Named::new(alloc),
            possible: Possible::new(alloc),
            known: 0,
            wirings: 0,
        }
    }
}
