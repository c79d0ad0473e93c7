//! What is found out of an owner once: the candidates of its requirements, the fragments that may be attached to it, and its
//! first decisions.

ghost use Rattle.std.specs.Prelude.{◌≡◌, ◌↔◌, ◌<◌, [], IfOk, IsTrue};
ghost use Rattle.std.specs.List.{list_any};
ghost use Rattle.osgi_world.specs.Lookups.{is_current, requirement_count, IsNeeded};
ghost use Rattle.osgi_world.specs.Payloads.{own_requirements};
ghost use Rattle.osgi_world.specs.declared.problem.Problem.{Problem};
ghost use Rattle.osgi_world.specs.declared.wiring.ReqRef.{ReqRef};
ghost use Rattle.osgi_resolver_decisions.specs.Sure.{LacksCandidate};
ghost use Rattle.osgi_resolver_decisions.specs.computed.Free.{asks_space, is_free, is_of_space};
ghost use Rattle.osgi_resolver_decisions.specs.computed.Known.{AreListsOf, IsProblemIn, IsRightOf};
ghost use Rattle.osgi_resolver_decisions.specs.computed.Sureness.{IsSureBy, list_at};

use crate::asks::list_at;
use crate::decisions::Decisions;
use crate::first::first_decisions;
use osgi_base::{RevisionId, Shared};
use osgi_candidates::Offers;
use osgi_lookup::{is_bundle, is_package};
use osgi_world::{CapRef, ReqRef};
use std::alloc::{AllocError, Global};

/// What a world offers to an owner.
pub struct Owned {
    /// The candidates of its requirements, by their places. One that is not effective has none here. Requirements that ask for the
    /// same share a list.
    pub lists: Vec<Shared<Vec<CapRef>>>,
    /// The fragments that may be attached to it, by bundle id.
    pub fragments: Vec<RevisionId>,
    /// Its decisions as a member of which nothing is decided yet.
    pub first: Decisions,
    /// Whether it has no attachment, bundle requirement or import to decide.
    pub is_free: bool,
    /// Each requirement that is needed may have one wire alone, and has a candidate. Where it is false, that need not be so.
    pub is_sure: bool,
    /// Whether it is current, and a requirement that is needed has no candidate.
    pub lacks_candidate: bool,
}

/// Not derived, so that each exit at which one is dropped is a single call, which is cheap to prove.
impl Drop for Owned {
    fn drop(self) {
        let Owned {
            lists: _,
            fragments: _,
            first: _,
            is_free: _,
            is_sure: _,
            lacks_candidate: _,
        } = self;
    }
}

// ---- candidates

/// Whether a requirement that is needed has a candidate in its list, and may have one wire alone. Where the answer is false, that
/// need not be so.
fn is_sure(offers: &Offers, lists: &[Shared<Vec<CapRef>>], requirement: ReqRef) -> bool
    ensures sure { IsTrue result → IsNeeded offers.now.known requirement
        → IsSureBy offers.now.known (list_at lists.now requirement.index) requirement }
{
    let known = offers.known();
    if !known.is_needed(requirement) {
        return true;
    }
    if known.is_multiple(requirement) {
        return false;
    }
    !list_at(lists, requirement.index).is_empty()
}

/// Whether it is so with each requirement of the owner. Where the answer is false, that need not be so.
fn are_sure(offers: &Offers, lists: &[Shared<Vec<CapRef>>], owner: RevisionId) -> bool
    ensures sure { IsTrue result → (q : ReqRef) → q.owner ≡ owner
        → q.index < requirement_count offers.now.known owner → IsNeeded offers.now.known q
        → IsSureBy offers.now.known (list_at lists.now q.index) q }
{
    for index in 0..offers.known().requirement_count(owner) {
        let requirement = ReqRef {
            owner,
            index: index as u32,
        };
        if !is_sure(offers, lists, requirement) {
            return false;
        }
    }
    true
}

/// Whether the requirement is needed, and has no candidate in its list.
fn is_lacking(offers: &Offers, lists: &[Shared<Vec<CapRef>>], requirement: ReqRef) -> bool
    ensures lacking { IsTrue result ↔ IsNeeded offers.now.known requirement
        × (list_at lists.now requirement.index ≡ []) }
{
    if !offers.known().is_needed(requirement) {
        return false;
    }
    list_at(lists, requirement.index).is_empty()
}

/// Whether the owner is current, and it is so with a requirement of it. The lists are those of the owner.
fn has_lacking(offers: &Offers, lists: &[Shared<Vec<CapRef>>], owner: RevisionId) -> bool
    requires lists { AreListsOf offers.now owner lists.now }
    ensures lacks { (P : Problem) → IsProblemIn offers.now P → IsTrue result
        ↔ IsTrue (is_current P.world.known owner) × LacksCandidate P owner }
{
    if !offers.known().is_current(owner) {
        return false;
    }
    for index in 0..offers.known().requirement_count(owner) {
        let requirement = ReqRef {
            owner,
            index: index as u32,
        };
        if is_lacking(offers, lists, requirement) {
            return true;
        }
    }
    false
}

// ---- what is of space

/// Whether a requirement of the namespace is for a bundle or a package.
pub fn is_of_space(namespace: &[u8]) -> bool
    ensures of_space { result ≡ is_of_space namespace.now }
{
    is_bundle(namespace) || is_package(namespace)
}

/// Whether the requirement of a bundle or a package has a decision.
fn asks_space(alloc: Global, offers: &Offers, requirement: ReqRef) -> Result<bool, AllocError>
    ensures asks { IfOk result (λ asks. (P : Problem) → IsProblemIn offers.now P
        → IsTrue (is_current P.world.known requirement.owner)
        → requirement.index < requirement_count P.world.known requirement.owner
        → asks ≡ asks_space P requirement) }
{
    let known = offers.known();
    if !(known.is_effective(requirement) && is_of_space(known.requirement_namespace(requirement))) {
        return Ok(false);
    }
    if !known.is_multiple(requirement) {
        return Ok(true);
    }
    let candidates = offers.candidates(alloc, requirement)?;
    Ok(!candidates.is_empty())
}

/// Whether an owner has a requirement of a bundle or a package that has a decision.
fn owner_asks_space(alloc: Global, offers: &Offers, owner: RevisionId) -> Result<bool, AllocError>
    ensures asks { IfOk result (λ asks. (P : Problem) → IsProblemIn offers.now P
        → IsTrue (is_current P.world.known owner)
        → asks ≡ list_any (asks_space P) (own_requirements P.world.known owner)) }
{
    let mut asks = false;
    for index in 0..offers.known().requirement_count(owner) {
        let requirement = ReqRef {
            owner,
            index: index as u32,
        };
        if !asks {
            asks = asks_space(alloc, offers, requirement)?;
        }
    }
    Ok(asks)
}

// ---- all of it

/// What is found out of the owner, whose lists these are.
pub fn owned_with(
    alloc: Global,
    offers: &Offers,
    owner: RevisionId,
    lists: Vec<Shared<Vec<CapRef>>>,
) -> Result<Owned, AllocError>
    requires lists { AreListsOf offers.now owner lists.items }
    ensures right { IfOk result (λ owned. (P : Problem) → IsProblemIn offers.now P
        → IsRightOf P owner owned) }
{
    let fragments = offers.fragments_for(alloc, owner)?;
    let first = first_decisions(alloc, offers, lists.as_slice(), fragments.as_slice(), owner)?;
    let first = Decisions::of(alloc, first)?;
    let is_free = fragments.is_empty() && !owner_asks_space(alloc, offers, owner)?;
    let is_sure = are_sure(offers, lists.as_slice(), owner);
    let lacks_candidate = has_lacking(offers, lists.as_slice(), owner);
    Ok(Owned {
        lists,
        fragments,
        first,
        is_free,
        is_sure,
        lacks_candidate,
    })
}
