//! The decisions of the requirements of a host's payload.

ghost use Rattle.std.specs.Prelude.{◌≡◌, ◌++◌, All, IfOk, IsTrue, OnOk};
ghost use Rattle.osgi_base.specs.declared.ids.RevisionId.{RevisionId};
ghost use Rattle.osgi_world.specs.Lookups.{is_current};
ghost use Rattle.osgi_world.specs.declared.problem.Problem.{Problem};
ghost use Rattle.osgi_resolver_decisions.specs.computed.Asks.{asks_by, asks_of, decisions_in};
ghost use Rattle.osgi_resolver_decisions.specs.computed.Known.{IsProblemIn, Knows};

use crate::asks::add_owner;
use crate::decision_ref::DecisionRef;
use crate::kind::Kind;
use crate::lists::Lists;
use osgi_base::RevisionId;
use std::alloc::{AllocError, Global};

/// Adds the decisions of several owners' effective requirements of a kind.
fn add_kind(
    asks: &mut Vec<DecisionRef>,
    lists: &Lists,
    host: RevisionId,
    kind: Kind,
    owners: &[RevisionId],
) -> Result<(), AllocError>
    requires known { All (Knows lists.now) owners.now }
    ensures added { OnOk result ((P : Problem) → IsProblemIn lists.now.offers P
        → All (λ (o : RevisionId). IsTrue (is_current P.world.known o)) owners.now
        → decisions_in asks.new.items
        ≡ decisions_in asks.old.items ++ asks_by P host kind owners.now) }
{
    for owner in owners {
        let candidates = lists.of_owner(*owner);
        add_owner(asks, lists.offers(), candidates, host, kind, *owner)?;
    }
    Ok(())
}

/// The decisions of the owners' requirements: required bundles first, then imports, then others.
pub fn asks_of(
    alloc: Global,
    lists: &Lists,
    host: RevisionId,
    owners: &[RevisionId],
) -> Result<Vec<DecisionRef>, AllocError>
    requires known { All (Knows lists.now) owners.now }
    ensures asks { IfOk result (λ asks. (P : Problem) → IsProblemIn lists.now.offers P
        → All (λ (o : RevisionId). IsTrue (is_current P.world.known o)) owners.now
        → decisions_in asks.items ≡ asks_of P host owners.now) }
{
    let mut asks = Vec::new(alloc);
    add_kind(&mut asks, lists, host, Kind::Bundle, owners)?;
    add_kind(&mut asks, lists, host, Kind::Package, owners)?;
    add_kind(&mut asks, lists, host, Kind::Other, owners)?;
    Ok(asks)
}
