//! The decisions of an owner's requirements.

ghost use Rattle.std.specs.Prelude.{◌≡◌, ◌<◌, ◌∷◌, [], ◌++◌, IsTrue, OnOk, map};
ghost use Rattle.osgi_world.specs.Candidates.{CanBeAsked};
ghost use Rattle.osgi_world.specs.Decisions.{pick};
ghost use Rattle.osgi_world.specs.DueDecisions.{decisions_of};
ghost use Rattle.osgi_world.specs.Lookups.{is_current, requirement_count};
ghost use Rattle.osgi_world.specs.Payloads.{own_requirements};
ghost use Rattle.osgi_world.specs.declared.problem.Problem.{Problem};
ghost use Rattle.osgi_resolver_decisions.specs.computed.Asks.{asks_among, decisions_in};
ghost use Rattle.osgi_resolver_decisions.specs.computed.Known.{AreListsOf, IsProblemIn};
ghost use Rattle.osgi_resolver_decisions.specs.computed.Sureness.{list_at};

use crate::decision_ref::DecisionRef;
use crate::kind::Kind;
use osgi_base::{RevisionId, Shared};
use osgi_candidates::Offers;
use osgi_world::{CapRef, ReqRef};
use std::alloc::AllocError;

/// The list at a place, or an empty one where there is none.
pub fn list_at(lists: &[Shared<Vec<CapRef>>], index: u32) -> &[CapRef]
    ensures list { result.now ≡ list_at lists.now index }
{
    match lists.get(index as usize) {
        Some(list) => list.get().as_slice(),
        None => &[],
    }
}

/// Adds a decision for each candidate of a requirement that may have several wires.
fn add_picks(
    asks: &mut Vec<DecisionRef>,
    host: RevisionId,
    requirement: ReqRef,
    candidates: &[CapRef],
) -> Result<(), AllocError>
    ensures added { OnOk result (decisions_in asks.new.items
        ≡ decisions_in asks.old.items ++ map (pick host requirement) candidates.now) }
{
    for capability in candidates {
        asks.push(DecisionRef::Pick {
            host,
            requirement,
            capability: *capability,
        })?;
    }
    Ok(())
}

/// Adds the decisions of a requirement. The lists are those of its owner.
fn add_requirement(
    asks: &mut Vec<DecisionRef>,
    offers: &Offers,
    lists: &[Shared<Vec<CapRef>>],
    host: RevisionId,
    requirement: ReqRef,
) -> Result<(), AllocError>
    requires lists { AreListsOf offers.now requirement.owner lists.now }
    ensures added { OnOk result ((P : Problem) → IsProblemIn offers.now P
        → CanBeAsked P.world.known requirement
        → decisions_in asks.new.items
        ≡ decisions_in asks.old.items ++ decisions_of P host requirement) }
{
    if offers.known().is_multiple(requirement) {
        add_picks(asks, host, requirement, list_at(lists, requirement.index))?;
    } else {
        asks.push(DecisionRef::Choose { host, requirement })?;
    }
    Ok(())
}

/// Adds the decisions of a requirement if it is effective and of the kind. The lists are those of its owner.
fn add_of_kind(
    asks: &mut Vec<DecisionRef>,
    offers: &Offers,
    lists: &[Shared<Vec<CapRef>>],
    host: RevisionId,
    kind: Kind,
    requirement: ReqRef,
) -> Result<(), AllocError>
    requires lists { AreListsOf offers.now requirement.owner lists.now }
    ensures added { OnOk result ((P : Problem) → IsProblemIn offers.now P
        → IsTrue (is_current P.world.known requirement.owner)
        → requirement.index < requirement_count P.world.known requirement.owner
        → decisions_in asks.new.items
        ≡ decisions_in asks.old.items ++ asks_among P host kind (requirement ∷ [])) }
{
    let known = offers.known();
    if known.is_effective(requirement) && kind.has(known.requirement_namespace(requirement)) {
        add_requirement(asks, offers, lists, host, requirement)?;
    }
    Ok(())
}

/// Adds the decisions of an owner's effective requirements of a kind. The lists are those of the owner.
pub fn add_owner(
    asks: &mut Vec<DecisionRef>,
    offers: &Offers,
    lists: &[Shared<Vec<CapRef>>],
    host: RevisionId,
    kind: Kind,
    owner: RevisionId,
) -> Result<(), AllocError>
    requires lists { AreListsOf offers.now owner lists.now }
    ensures added { OnOk result ((P : Problem) → IsProblemIn offers.now P
        → IsTrue (is_current P.world.known owner)
        → decisions_in asks.new.items ≡ decisions_in asks.old.items
        ++ asks_among P host kind (own_requirements P.world.known owner)) }
{
    for index in 0..offers.known().requirement_count(owner) {
        let requirement = ReqRef {
            owner,
            index: index as u32,
        };
        add_of_kind(asks, offers, lists, host, kind, requirement)?;
    }
    Ok(())
}
