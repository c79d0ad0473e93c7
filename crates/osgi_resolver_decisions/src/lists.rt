//! What was found out of owners, as far as it was asked for.

ghost use Rattle.std.specs.Prelude.{◌≡◌, ◌↔◌, IfOk, IfSome, OnOk, IsSome, IsTrue};
ghost use Rattle.osgi_world.specs.Candidates.{CanBeAsked, candidates, matching};
ghost use Rattle.osgi_world.specs.Lookups.{is_current};
ghost use Rattle.osgi_world.specs.declared.problem.Problem.{Problem};
ghost use Rattle.osgi_resolver_decisions.specs.Sure.{AreSure, LacksCandidate};
ghost use Rattle.osgi_resolver_decisions.specs.computed.Asks.{decisions_in, first_due};
ghost use Rattle.osgi_resolver_decisions.specs.computed.Free.{is_free};
ghost use Rattle.osgi_resolver_decisions.specs.computed.Known.{AreListsBefore, AreListsOf, IsProblemIn, IsRightOf, Knows, KnowsMore};

use crate::asks::list_at;
use crate::decisions::Decisions;
use crate::owned::{Owned, owned_with};
use crate::plain::{add_plain_of, are_alike};
use crate::same::list_before;
use osgi_base::{NumberMap, RevisionId, Shared, Text};
use osgi_candidates::Offers;
use osgi_world::{CapRef, ReqRef};
use std::alloc::{AllocError, Global};
use std::collections::BTreeMap;
use std::marker::Model;

/// What a world offers, and what was found out of each owner that was asked about. Contracts see these two; what was found out is
/// so in each problem of the world.
#[derive(Drop)]
pub struct Lists<'w> {
    offers: Offers<'w>,
    by_owner: NumberMap<Owned>,
    /// By the names of packages, an import of each that asks for nothing else. Others like it take its list.
    plain: BTreeMap<Text, ReqRef>,
}

impl<'w> Model for Lists<'w> {
    ghost use Rattle.std.specs.Coded.{codes};
    ghost use Rattle.osgi_model.specs.contracts.filter.Filter as filter;
    ghost use Rattle.osgi_model.specs.contracts.value.Value as value;
    ghost use Rattle.osgi_resolver_decisions.specs.computed.Known.{AreRight, FoundOut};

    ghost Value = { FoundOut };

    ghost coded = { Prim.hlevel (codes, filter.the_row.coded, value.the_row.coded) };

    ghost view = { λ l. record {
      offers = l.offers;
      low = l.by_owner.low.items;
      high = l.by_owner.high.entries;
    } };

    ghost invariant = { λ l. AreRight (record {
      offers = l.offers;
      low = l.by_owner.low.items;
      high = l.by_owner.high.entries;
    }) };
}

impl<'w> Lists<'w> {
    pub fn new(alloc: Global, offers: Offers<'w>) -> Lists<'w>
        ensures offers { result.offers ≡ offers.entry }
    {
        Lists {
            offers,
            by_owner: NumberMap::new(alloc),
            plain: BTreeMap::new(alloc),
        }
    }

    pub fn offers(&self) -> &Offers<'w>
        ensures world { result.now ≡ self.now.offers }
    {
        &self.offers
    }

    /// Finds out what is to be known of the owner, unless it is known.
    pub fn learn(&mut self, alloc: Global, owner: RevisionId) -> Result<(), AllocError>
        ensures nothing_lost { KnowsMore self.old self.new }
        ensures known { OnOk result (Knows self.new owner) }
    {
        if self.by_owner.get(owner.0).is_some() {
            return Ok(());
        }
        let lists = self.lists_of(alloc, owner)?;
        let owned = owned_with(alloc, &self.offers, owner, lists)?;
        self.by_owner.insert(owner.0, owned)?;
        add_plain_of(alloc, &mut self.plain, &self.offers, owner)
    }

    /// The candidates of the owner's requirements, by their places.
    fn lists_of(
        &self,
        alloc: Global,
        owner: RevisionId,
    ) -> Result<Vec<Shared<Vec<CapRef>>>, AllocError>
        ensures lists { IfOk result (λ lists. AreListsOf self.now.offers owner lists.items) }
    {
        let mut lists = Vec::new(alloc);
        for index in 0..self.offers().known().requirement_count(owner) {
            let requirement = ReqRef {
                owner,
                index: index as u32,
            };
            lists.push(self.list_after(alloc, requirement, lists.as_slice())?)?;
        }
        Ok(lists)
    }

    /// The candidates of the requirement, if it is effective: those of the one before it, if that asks for the same.
    fn list_after(
        &self,
        alloc: Global,
        requirement: ReqRef,
        before: &[Shared<Vec<CapRef>>],
    ) -> Result<Shared<Vec<CapRef>>, AllocError>
        requires before { AreListsBefore self.now.offers requirement before.now }
        ensures list { IfOk result (λ list. (P : Problem) → IsProblemIn self.now.offers P
            → CanBeAsked P.world.known requirement → list.items ≡ candidates P requirement) }
    {
        match list_before(self.offers(), requirement, before) {
            Some(list) => Ok(list.copy(alloc)?),
            None => self.list_of(alloc, requirement),
        }
    }

    /// The candidates of the requirement, if it is effective: those of one like it, if one is known, and else those that are offered.
    fn list_of(&self, alloc: Global, requirement: ReqRef) -> Result<Shared<Vec<CapRef>>, AllocError>
        ensures list { IfOk result (λ list. (P : Problem) → IsProblemIn self.now.offers P
            → CanBeAsked P.world.known requirement → list.items ≡ candidates P requirement) }
    {
        if !self.offers().known().is_effective(requirement) {
            return Ok(Shared::new(alloc, Vec::new(alloc))?);
        }
        match self.listed_alike(requirement) {
            Some(list) => Ok(list.copy(alloc)?),
            None => Ok(Shared::new(alloc, self.offers().candidates(alloc, requirement)?)?),
        }
    }

    /// The candidates of an import that is known and asks for the same package, where neither asks for anything else.
    fn listed_alike(&self, requirement: ReqRef) -> Option<&Shared<Vec<CapRef>>>
        ensures alike { IfSome result (λ list. (P : Problem) → IsProblemIn self.now.offers P
            → CanBeAsked P.world.known requirement → list.now.items ≡ candidates P requirement) }
    {
        let name = &self.offers().known().requirement(requirement)?.name;
        let other = *self.plain.get(name)?;
        if !are_alike(self.offers(), requirement, other, name) {
            return None;
        }
        self.listed(other)
    }

    /// The candidates of a requirement, if its owner is known.
    fn listed(&self, requirement: ReqRef) -> Option<&Shared<Vec<CapRef>>>
        ensures listed { IfSome result (λ list. (P : Problem) → IsProblemIn self.now.offers P
            → CanBeAsked P.world.known requirement → list.now.items ≡ candidates P requirement) }
    {
        let owned = self.owned(requirement.owner)?;
        owned.lists.get(requirement.index as usize)
    }

    /// What was found out about the owner, if it is known.
    fn owned(&self, owner: RevisionId) -> Option<&Owned>
        ensures known { IsSome result ↔ Knows self.now owner }
        ensures right { IfSome result (λ of. (P : Problem) → IsProblemIn self.now.offers P
            → IsRightOf P owner of.now) }
    {
        self.by_owner.get(owner.0)
    }

    /// The candidates of the requirements of an owner that is known, by their places.
    pub fn of_owner(&self, owner: RevisionId) -> &[Shared<Vec<CapRef>>]
        ensures lists { Knows self.now owner → AreListsOf self.now.offers owner result.now }
    {
        match self.owned(owner) {
            Some(owned) => owned.lists.as_slice(),
            None => &[],
        }
    }

    /// The candidates of a requirement whose owner is known.
    pub fn candidates(&self, requirement: ReqRef) -> &[CapRef]
        ensures candidates { (P : Problem) → IsProblemIn self.now.offers P
            → Knows self.now requirement.owner → CanBeAsked P.world.known requirement
            → result.now ≡ candidates P requirement }
    {
        list_at(self.of_owner(requirement.owner), requirement.index)
    }

    /// The fragments that may be attached to an owner that is known, by bundle id.
    pub fn fragments_for(&self, owner: RevisionId) -> &[RevisionId]
        ensures fragments { (P : Problem) → IsProblemIn self.now.offers P → Knows self.now owner
            → result.now ≡ matching P owner }
    {
        match self.owned(owner) {
            Some(owned) => owned.fragments.as_slice(),
            None => &[],
        }
    }

    /// The decisions of an owner that is known, as a member of which nothing is decided yet.
    pub fn first_of(&self, owner: RevisionId) -> Result<Decisions, AllocError>
        ensures first { IfOk result (λ first. (P : Problem) → IsProblemIn self.now.offers P
            → Knows self.now owner → IsTrue (is_current P.world.known owner)
            → decisions_in first ≡ first_due P owner) }
    {
        match self.owned(owner) {
            Some(owned) => Ok(owned.first.share()?),
            None => Ok(Decisions::none()),
        }
    }

    /// Whether an owner that is known has no attachment, bundle requirement or import to decide.
    pub fn is_free(&self, owner: RevisionId) -> bool
        ensures free { (P : Problem) → IsProblemIn self.now.offers P → Knows self.now owner
            → IsTrue (is_current P.world.known owner) → result ≡ is_free P owner }
    {
        match self.owned(owner) {
            Some(owned) => owned.is_free,
            None => false,
        }
    }

    /// Whether each requirement that is needed of an owner that is known has a candidate, and may have one wire alone. Where the
    /// answer is false, that need not be so.
    pub fn is_sure(&self, owner: RevisionId) -> bool
        ensures sure { IsTrue result → (P : Problem) → IsProblemIn self.now.offers P
            → Knows self.now owner → IsTrue (is_current P.world.known owner) → AreSure P owner }
    {
        match self.owned(owner) {
            Some(owned) => owned.is_sure,
            None => false,
        }
    }

    /// Whether the owner is known and current, and a requirement of it that is needed has no candidate.
    pub fn lacks_candidate(&self, owner: RevisionId) -> bool
        ensures lacks { (P : Problem) → IsProblemIn self.now.offers P → IsTrue result
            ↔ Knows self.now owner × IsTrue (is_current P.world.known owner)
            × LacksCandidate P owner }
    {
        match self.owned(owner) {
            Some(owned) => owned.lacks_candidate,
            None => false,
        }
    }
}
