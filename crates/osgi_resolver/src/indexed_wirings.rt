//! The wirings in force, with what is kept of their world between resolves.

ghost use Rattle.std.specs.Prelude.{◌≡◌, ◌+◌, ◌-◌, ◌^◌, ◌<◌, ◌≤◌, None, IfOk, IsOk, OnOk, OnErr};
ghost use Rattle.osgi_resolver.specs.Answers.{IsAnswerTo};
ghost use Rattle.osgi_wiring.specs.States.{BecomesKnown, current_in, current_of, bare_world, IsKeptWorld, MayExtend, NeedsNothing, with_known, with_wirings};
ghost use Rattle.osgi_world.specs.Candidates.{IsUnresolved};

use crate::answer::Answer;
use crate::index::Index;
use crate::refusals::Refusals;
use crate::resolving::resolve_with;
use osgi_base::{BundleId, List, RevisionId, Shared};
use osgi_wiring::Wirings;
use osgi_world::{Revision, Wiring};
use std::alloc::{AllocError, Global};
use std::marker::Model;

/// The known revisions and the wirings in force, as `Wirings` has them. A resolve makes use of what an earlier one has found out,
/// and reads only what is new in the world since, and the ids of the known revisions. A root that was refused within a budget is
/// refused again within that budget without a search, until the world changes, if memory sufficed to keep the refusal.
pub struct IndexedWirings {
    alloc: Global,
    wirings: Wirings,
    index: Index,
    refusals: Refusals,
}

/// Not derived, so that each exit at which one is dropped is a single call, which is cheap to prove.
impl Drop for IndexedWirings {
    fn drop(self) {
        let IndexedWirings {
            alloc: _,
            wirings: _,
            index: _,
            refusals: _,
        } = self;
    }
}

impl Model for IndexedWirings {
    ghost use Rattle.std.specs.Coded.{codes};
    ghost use Rattle.osgi_model.specs.contracts.filter.Filter as filter;
    ghost use Rattle.osgi_model.specs.contracts.value.Value as value;
    ghost use Rattle.osgi_resolver.specs.computed.Following.{FollowsWorld};
    ghost use Rattle.osgi_resolver.specs.computed.Refused.{AreOf};
    ghost use Rattle.osgi_wiring.specs.States.{WiringState};

    ghost Value = { WiringState };

    ghost coded = { Prim.hlevel (codes, filter.the_row.coded, value.the_row.coded) };

    ghost view = { λ w. w.wirings };

    ghost invariant = { λ w. FollowsWorld w.index w.wirings.world
        × AreOf w.refusals w.wirings.world };
}

impl IndexedWirings {
    /// The system bundle alone, by its only revision, which is in force.
    pub fn new(alloc: Global, system: Shared<Revision>) -> Result<IndexedWirings, AllocError>
        requires needs_nothing { NeedsNothing system }
        ensures world { IfOk result (λ wirings. wirings.world ≡ bare_world system) }
        ensures issued { IfOk result (λ wirings. wirings.issued ≡ 0) }
        ensures holds { IfOk result (λ wirings. IsKeptWorld wirings.world wirings.issued) }
    {
        Ok(IndexedWirings {
            alloc,
            wirings: Wirings::new(alloc, system)?,
            index: Index::new(alloc),
            refusals: Refusals::new(alloc),
        })
    }

    pub fn wirings(&self) -> &Wirings
        ensures wirings { result.now ≡ self.now }
        ensures holds { IsKeptWorld self.now.world self.now.issued }
    {
        // What holds of the world at all times is said where it is asked for.
        let _ = self.wirings.world();
        &self.wirings
    }

    /// Makes room for one more known revision.
    pub fn reserve(&mut self) -> Result<(), AllocError>
        ensures world { self.new.world ≡ self.old.world }
        ensures issued { self.new.issued ≡ self.old.issued }
        ensures room { OnOk result (0 < self.new.spare) }
        ensures no_less { self.old.spare ≤ self.new.spare }
        ensures unchanged { OnErr result (self.new ≡ self.old) }
    {
        self.wirings.reserve()
    }

    /// Makes known what an install or an update brought of a bundle that has no current revision, under the next id.
    pub fn add(
        &mut self,
        bundle: BundleId,
        revision: Shared<Revision>,
    ) -> Result<RevisionId, AllocError>
        requires ids_left { self.old.issued < u32.MAX }
        requires no_current { current_in self.old.world.known bundle ≡ None }
        ensures id { IfOk result (λ id. id.0 ≡ self.old.issued + 1) }
        ensures issued { OnOk result (self.new.issued ≡ self.old.issued + 1) }
        ensures world { IfOk result (λ id.
            self.new.world ≡ with_known self.old.world (current_of id bundle revision)) }
        ensures known { IfOk result (λ id.
            BecomesKnown self.old.world self.new.world (current_of id bundle revision)) }
        ensures holds { OnOk result (IsKeptWorld self.new.world self.new.issued) }
        ensures unchanged { OnErr result (self.new ≡ self.old) }
        ensures room { 0 < self.old.spare → IsOk result }
    {
        self.refusals = Refusals::new(self.alloc);
        self.wirings.add(bundle, revision)
    }

    /// Resolves the root: searches for the first good choice of its wires, of those of the revisions that these pull in, and of
    /// the fragments that are attached. The budget limits the effort: how many words that are not hopeless come before the first
    /// good one or, where none is good, how many there are. Nothing is put in force.
    pub fn resolve(&mut self, root: RevisionId, budget: u64) -> Result<Answer, AllocError>
        requires unresolved { IsUnresolved self.old.world.known self.old.world.wirings root }
        requires budget { budget < 2 ^ 64 - 1 }
        ensures answer { IfOk result (IsAnswerTo self.old.world root budget) }
        ensures unchanged { self.new ≡ self.old }
    {
        if let Some(answer) = self.refusals.answer(root, budget) {
            return Ok(answer);
        }
        let answer = resolve_with(
            self.alloc,
            self.wirings.world(),
            &mut self.index,
            root,
            budget,
        )?;
        self.refusals.keep(root, budget, &answer);
        Ok(answer)
    }

    /// Puts wirings in force.
    pub fn extend(&mut self, added: List<Wiring>) -> Result<(), AllocError>
        requires extends { MayExtend self.old.world added }
        ensures world { OnOk result (self.new.world ≡ with_wirings self.old.world added) }
        ensures holds { OnOk result (IsKeptWorld self.new.world self.new.issued) }
        ensures issued { self.new.issued ≡ self.old.issued }
        ensures spare { self.new.spare ≡ self.old.spare }
        ensures unchanged { OnErr result (self.new ≡ self.old) }
    {
        self.refusals = Refusals::new(self.alloc);
        self.wirings.extend(added)
    }
}
