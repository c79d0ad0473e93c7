//! What a world offers, kept from one resolve to the next.

ghost use Rattle.std.specs.Prelude.{List, OnErr, OnOk};
ghost use Rattle.osgi_candidates.specs.Following.{Covers, CoversFirst};
ghost use Rattle.osgi_candidates.specs.computed.Halfway.{IsHalfway};
ghost use Rattle.osgi_world.specs.Consistency.{Consistent};
ghost use Rattle.osgi_world.specs.Wirings.{IsWorld};
ghost use Rattle.osgi_world.specs.declared.wiring.Wiring.{Wiring};
ghost use Rattle.osgi_world.specs.declared.world.Known.{Known};

use crate::held::HeldWirings;
use crate::in_use::add_all_in_use;
use crate::names::KnownNames;
use osgi_lookup::KnownIndex;
use osgi_world::World;
use std::alloc::{AllocError, Global};
use std::collections::BTreeSet;

/// What a world offers, by names and by revisions, as far as it was followed: how many of its known revisions and wirings
/// were added, the names of these revisions, these wirings by revision, and the revisions in use. A world grows at its ends.
pub struct OfferIndex {
    known: usize,
    wirings: usize,
    pub(crate) names: KnownNames,
    pub(crate) held: HeldWirings,
    pub(crate) in_use: BTreeSet<u32>,
}

/// Not derived, so that each exit at which one is dropped is a single call, which is cheap to prove.
impl Drop for OfferIndex {
    fn drop(self) {
        let OfferIndex {
            known: _,
            wirings: _,
            names: _,
            held: _,
            in_use: _,
        } = self;
    }
}

impl OfferIndex {
    /// The index of nothing. It can follow each world.
    pub fn new(alloc: Global) -> OfferIndex
        ensures follows { (K : List Known) (W : List Wiring) → CoversFirst result K W }
    {
        OfferIndex {
            known: 0,
            wirings: 0,
            names: KnownNames::new(alloc),
            held: HeldWirings::new(alloc),
            in_use: BTreeSet::new(alloc),
        }
    }

    /// Adds what is new in the world. If memory runs out, it is the index of nothing again.
    pub fn follow(&mut self, alloc: Global, world: &World) -> Result<(), AllocError>
        requires follows { CoversFirst self.old world.now.known world.now.wirings }
        requires is_world { IsWorld world.now.known world.now.wirings }
        requires consistent { Consistent world.now.known world.now.wirings }
        ensures covers { OnOk result (Covers self.new world.now.known world.now.wirings) }
        ensures follows { CoversFirst self.new world.now.known world.now.wirings }
        ensures nothing { OnErr result ((K : List Known) (W : List Wiring)
            → CoversFirst self.new K W) }
    {
        match self.add_new(alloc, world) {
            Ok(()) => Ok(()),
            Err(error) => {
                *self = OfferIndex::new(alloc);
                Err(error)
            }
        }
    }

    fn add_new(&mut self, alloc: Global, world: &World) -> Result<(), AllocError>
        requires follows { CoversFirst self.old world.now.known world.now.wirings }
        requires is_world { IsWorld world.now.known world.now.wirings }
        ensures covers { OnOk result (Covers self.new world.now.known world.now.wirings) }
    {
        self.add_known(alloc, world)?;
        self.add_wirings(alloc, world)?;
        Ok(())
    }

    /// Adds the revisions that became known.
    fn add_known(&mut self, alloc: Global, world: &World) -> Result<(), AllocError>
        requires follows { CoversFirst self.old world.now.known world.now.wirings }
        requires is_world { IsWorld world.now.known world.now.wirings }
        ensures halfway { OnOk result (IsHalfway self.new world.now.known world.now.wirings) }
    {
        let known = world.known.items();
        self.names.add_all(alloc, &known[self.known..])?;
        self.known = known.len();
        Ok(())
    }

    /// Adds the wirings that came into force.
    fn add_wirings(&mut self, alloc: Global, world: &World) -> Result<(), AllocError>
        requires halfway { IsHalfway self.old world.now.known world.now.wirings }
        ensures covers { OnOk result (Covers self.new world.now.known world.now.wirings) }
    {
        let wirings = world.wirings.items();
        if self.wirings == wirings.len() {
            return Ok(());
        }
        let known = KnownIndex::new(alloc, world.known.items())?;
        let added = &wirings[self.wirings..];
        self.held.add_all(&known, added)?;
        add_all_in_use(&mut self.in_use, added)?;
        self.wirings = wirings.len();
        Ok(())
    }
}
