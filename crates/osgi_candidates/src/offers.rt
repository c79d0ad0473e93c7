//! What a world offers to the requirements of a revision that is to be resolved.

ghost use Rattle.std.specs.Prelude.{◌≡◌, ◌↔◌, IfOk, IsTrue};
ghost use Rattle.osgi_base.specs.declared.ids.RevisionId.{RevisionId};
ghost use Rattle.osgi_candidates.specs.Following.{Covers};
ghost use Rattle.osgi_world.specs.Candidates.{CanBeAsked, IsProblem, candidates, matching};
ghost use Rattle.osgi_world.specs.Lists.{In};
ghost use Rattle.osgi_world.specs.Lookups.{IsKnown, symbolic_name};
ghost use Rattle.osgi_world.specs.Wirings.{InForce, InUse};
ghost use Rattle.osgi_world.specs.declared.problem.Problem.{Problem};

use crate::offer_index::OfferIndex;
use osgi_base::{RevisionId, Text};
use osgi_lookup::KnownIndex;
use osgi_world::{CapRef, ReqRef, World};
use std::alloc::{AllocError, Global};
use std::marker::Model;

/// A world, with its known revisions by id and an index that covers it. Contracts see the world.
#[derive(Drop)]
pub struct Offers<'w> {
    world: &'w World,
    pub(crate) known: KnownIndex<'w>,
    pub(crate) index: &'w OfferIndex,
}

impl<'w> Model for Offers<'w> {
    ghost use Rattle.std.specs.Prelude.{◌≡◌};
    ghost use Rattle.std.specs.Coded.{codes};
    ghost use Rattle.osgi_candidates.specs.Following.{Covers};
    ghost use Rattle.osgi_model.specs.contracts.filter.Filter as filter;
    ghost use Rattle.osgi_model.specs.contracts.value.Value as value;
    ghost use Rattle.osgi_world.specs.declared.world.World.{World};

    ghost Value = { World };

    ghost coded = { Prim.hlevel (codes, filter.the_row.coded, value.the_row.coded) };

    ghost view = { λ o. o.world.now };

    ghost invariant = { λ o. (o.known ≡ o.world.now.known)
        × Covers o.index.now o.world.now.known o.world.now.wirings };
}

impl<'w> Offers<'w> {
    pub fn new(
        alloc: Global,
        world: &'w World,
        index: &'w OfferIndex,
    ) -> Result<Offers<'w>, AllocError>
        requires covers { Covers index.now world.now.known world.now.wirings }
        ensures world { IfOk result (λ offers. offers ≡ world.now) }
    {
        let known = KnownIndex::new(alloc, world.known.items())?;
        Ok(Offers {
            world,
            known,
            index,
        })
    }

    pub fn known(&self) -> &KnownIndex<'w>
        ensures known { result.now ≡ self.now.known }
    {
        &self.known
    }

    /// Whether the revision has a wiring.
    pub fn is_in_force(&self, revision: RevisionId) -> bool
        ensures in_force { IsTrue result ↔ InForce self.now.wirings revision }
    {
        self.index.held.has(revision)
    }

    /// Whether the revision has a wiring, or is attached to one that has.
    pub fn is_in_use(&self, revision: RevisionId) -> bool
        ensures in_use { IsTrue result ↔ InUse self.now.wirings revision }
    {
        self.index.in_use.contains(&revision.0)
    }

    /// The known revisions with this symbolic name, in no promised order.
    pub fn named(&self, name: &Text) -> &[RevisionId]
        ensures named { (r : RevisionId) → In r result.now ↔ IsKnown self.now.known r
            × (symbolic_name self.now.known r ≡ name.now) }
    {
        self.index.names.revisions.of(name)
    }

    /// The candidates of an effective requirement of a current revision, the preferred first. Said of a consistent world in order
    /// that has an unresolved revision; of others nothing is said.
    pub fn candidates(&self, alloc: Global, requirement: ReqRef) -> Result<Vec<CapRef>, AllocError>
        ensures candidates { IfOk result (λ list. (P : Problem) → IsProblem P → P.world ≡ self.now
            → CanBeAsked P.world.known requirement → list.items ≡ candidates P requirement) }
    {
        let list = self.listed(alloc, requirement)?;
        Ok(list)
    }

    /// The current fragments that match the host, by bundle id. Said of such a world as for `candidates`.
    pub fn fragments_for(
        &self,
        alloc: Global,
        host: RevisionId,
    ) -> Result<Vec<RevisionId>, AllocError>
        ensures fragments { IfOk result (λ list. (P : Problem) → IsProblem P → P.world ≡ self.now
            → list.items ≡ matching P host) }
    {
        let list = self.attachable(alloc, host)?;
        Ok(list)
    }
}
