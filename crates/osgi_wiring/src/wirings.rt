//! The known revisions and the wirings in force.

ghost use Rattle.std.specs.Prelude.{◌≡◌, ◌+◌, ◌<◌, ◌≤◌, None, IfOk, IsOk, OnOk, OnErr};
ghost use Rattle.std.specs.Option.{option_copied};
ghost use Rattle.osgi_wiring.specs.States.{BecomesKnown, current_in, current_of, bare_world, IsKeptWorld, MayExtend, NeedsNothing, wiring_at, with_known, with_wirings};
ghost use Rattle.osgi_world.specs.Lookups.{known_at};

use crate::index::{first_index, note_current, note_wirings};
use crate::room::push_or_move;
use indexmap::{IndexMap, IndexSet};
use osgi_base::{BundleId, List, RevisionId, Shared};
use osgi_world::{Known, Revision, Wiring, World};
use std::alloc::{AllocError, Global};
use std::marker::Model;
use std::mem;

/// A world that is consistent at all times: what changes it keeps it so. Revision ids rise and are never given twice. Its calls
/// speak of worlds and not of histories: the world of a history is told with it, and whoever keeps both shows that this is it.
///
/// The room is an empty vector. Where the known revisions grow and there is no memory, they move there. The ids of the known
/// revisions and of those in force stand in the order of the world's lists; each bundle has the id of its current revision.
pub struct Wirings {
    alloc: Global,
    world: World,
    issued: u32,
    room: Vec<Known>,
    reserved: bool,
    ids: IndexSet<u32>,
    current: IndexMap<u32, u32>,
    in_force: IndexSet<u32>,
}

/// Not derived, so that each exit at which one is dropped is a single call, which is cheap to prove.
impl Drop for Wirings {
    fn drop(self) {
        let Wirings {
            alloc: _,
            world: _,
            issued: _,
            room: _,
            reserved: _,
            ids: _,
            current: _,
            in_force: _,
        } = self;
    }
}

impl Model for Wirings {
    ghost use Rattle.std.specs.Prelude.{if◌then◌else◌, nat_eq, vec_capacity};
    ghost use Rattle.std.specs.Coded.{codes};
    ghost use Rattle.indexmap.specs.IndexMap as map;
    ghost use Rattle.indexmap.specs.IndexSet as set;
    ghost use Rattle.osgi_model.specs.contracts.filter.Filter as filter;
    ghost use Rattle.osgi_model.specs.contracts.value.Value as value;
    ghost use Rattle.osgi_wiring.specs.States.{WiringState};
    ghost use Rattle.osgi_wiring.specs.computed.Kept.{IsKept};

    ghost Value = { WiringState };

    ghost coded = { Prim.hlevel (codes, filter.the_row.coded, value.the_row.coded) };

    ghost view = { λ w. record { world = w.world; issued = w.issued; spare = if w.reserved then 1 else 0 } };

    ghost invariant = { λ w. IsKept w.world w.issued w.ids.keys (map.get nat_eq w.current) w.in_force.keys w.room.items w.reserved (vec_capacity w.room) (set.spare w.ids) (map.spare w.current) };
}

impl Wirings {
    /// The system bundle alone, by its only revision, which is in force.
    pub fn new(alloc: Global, system: Shared<Revision>) -> Result<Wirings, AllocError>
        requires needs_nothing { NeedsNothing system }
        ensures world { IfOk result (λ wirings. wirings.world ≡ bare_world system) }
        ensures issued { IfOk result (λ wirings. wirings.issued ≡ 0) }
        ensures holds { IfOk result (λ wirings. IsKeptWorld wirings.world wirings.issued) }
    {
        let id = RevisionId(0);
        let mut known = List::with_capacity(alloc, 1)?;
        known.push(Known {
            id,
            bundle: BundleId(0),
            current: true,
            revision: system,
        })?;
        let mut wirings = List::with_capacity(alloc, 1)?;
        wirings.push(Wiring {
            revision: id,
            wires: List::from(Vec::new(alloc)),
            fragments: List::from(Vec::new(alloc)),
        })?;
        let (ids, current, in_force) = first_index(alloc)?;
        Ok(Wirings {
            alloc,
            world: World { known, wirings },
            issued: 0,
            room: Vec::new(alloc),
            reserved: false,
            ids,
            current,
            in_force,
        })
    }

    pub fn world(&self) -> &World
        ensures world { result.now ≡ self.now.world }
        ensures holds { IsKeptWorld self.now.world self.now.issued }
    {
        &self.world
    }

    /// How many revision ids were given, revision 0 not counted.
    pub fn issued(&self) -> u32
        ensures issued { result ≡ self.now.issued }
    {
        self.issued
    }

    /// What is known of a revision.
    pub fn known(&self, revision: RevisionId) -> Option<&Known>
        ensures known { option_copied result ≡ known_at self.now.world.known revision }
    {
        let place = self.ids.get_index_of(&revision.0)?;
        self.world.known.items().get(place)
    }

    /// The current revision of a bundle.
    pub fn current(&self, bundle: BundleId) -> Option<&Known>
        ensures current { option_copied result ≡ current_in self.now.world.known bundle }
    {
        let &id = self.current.get(&bundle.0)?;
        self.known(RevisionId(id))
    }

    /// The wiring of a revision that is in force.
    pub fn wiring(&self, revision: RevisionId) -> Option<&Wiring>
        ensures wiring { option_copied result ≡ wiring_at self.now.world.wirings revision }
    {
        let place = self.in_force.get_index_of(&revision.0)?;
        self.world.wirings.items().get(place)
    }

    /// Makes room for one more known revision.
    pub fn reserve(&mut self) -> Result<(), AllocError>
        ensures world { self.new.world ≡ self.old.world }
        ensures issued { self.new.issued ≡ self.old.issued }
        ensures room { OnOk result (0 < self.new.spare) }
        ensures no_less { self.old.spare ≤ self.new.spare }
        ensures unchanged { OnErr result (self.new ≡ self.old) }
    {
        self.room.reserve(self.world.known.items().len() + 1)?;
        self.ids.reserve(1)?;
        self.current.reserve(1)?;
        self.reserved = true;
        Ok(())
    }

    /// Makes known what an install or an update brought of a bundle that has no current revision, under the next id. It is not
    /// in force, and the bundle's earlier revisions stay as they are. How much room there is afterwards stays open.
    pub fn add(
        &mut self,
        bundle: BundleId,
        revision: Shared<Revision>,
    ) -> Result<RevisionId, AllocError>
        requires ids_left { self.old.issued < u32.MAX }
        requires no_current { current_in self.old.world.known bundle ≡ None }
        ensures id { IfOk result (λ id. id.0 ≡ self.old.issued + 1) }
        ensures issued { OnOk result (self.new.issued ≡ self.old.issued + 1) }
        ensures world { IfOk result (λ id. self.new.world ≡ with_known self.old.world (current_of id bundle revision)) }
        ensures known { IfOk result (λ id. BecomesKnown self.old.world self.new.world (current_of id bundle revision)) }
        ensures holds { OnOk result (IsKeptWorld self.new.world self.new.issued) }
        ensures unchanged { OnErr result (self.new ≡ self.old) }
        ensures room { 0 < self.old.spare → IsOk result }
    {
        // Room in the indices is taken first: once the world has changed nothing may fail.
        self.ids.reserve(1)?;
        self.current.reserve(1)?;
        let id = RevisionId(self.issued + 1);
        let known = Known {
            id,
            bundle,
            current: true,
            revision,
        };
        let empty = List::from(Vec::new(self.alloc));
        let mut items = mem::replace(&mut self.world.known, empty).into_items();
        let pushed = push_or_move(&mut items, &mut self.room, known);
        self.world.known = List::from(items);
        pushed?;
        note_current(&mut self.ids, &mut self.current, bundle, id);
        self.issued += 1;
        self.reserved = false;
        Ok(id)
    }

    /// Puts wirings in force.
    pub fn extend(&mut self, added: List<Wiring>) -> Result<(), AllocError>
        requires extends { MayExtend self.old.world added }
        ensures world { OnOk result (self.new.world ≡ with_wirings self.old.world added) }
        ensures holds { OnOk result (IsKeptWorld self.new.world self.new.issued) }
        ensures issued { self.new.issued ≡ self.old.issued }
        ensures spare { self.new.spare ≡ self.old.spare }
        ensures unchanged { OnErr result (self.new ≡ self.old) }
    {
        let before = self.world.wirings.items().len();
        self.in_force.reserve(added.items().len())?;
        let empty = List::from(Vec::new(self.alloc));
        let mut wirings = mem::replace(&mut self.world.wirings, empty).into_items();
        let appended = wirings.append(&mut added.into_items());
        self.world.wirings = List::from(wirings);
        appended?;
        note_wirings(&mut self.in_force, &self.world.wirings.items()[before..]);
        Ok(())
    }
}
