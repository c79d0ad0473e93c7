//! The decisions of a member of which nothing is decided yet.

ghost use Rattle.std.specs.Prelude.{◌≡◌, ◌∷◌, [], IfOk, IsTrue, map};
ghost use Rattle.osgi_world.specs.Candidates.{matching};
ghost use Rattle.osgi_world.specs.Decisions.{attaching};
ghost use Rattle.osgi_world.specs.Lookups.{is_current};
ghost use Rattle.osgi_world.specs.declared.problem.Problem.{Problem};
ghost use Rattle.osgi_resolver_decisions.specs.computed.Asks.{asks_of, decisions_in, first_due};
ghost use Rattle.osgi_resolver_decisions.specs.computed.Known.{AreListsOf, IsProblemIn};

use crate::asks::add_owner;
use crate::decision_ref::DecisionRef;
use crate::kind::Kind;
use osgi_base::{RevisionId, Shared};
use osgi_candidates::Offers;
use osgi_world::CapRef;
use std::alloc::{AllocError, Global};

/// The decisions on a host's fragments.
fn attachments_of(
    alloc: Global,
    host: RevisionId,
    fragments: &[RevisionId],
) -> Result<Vec<DecisionRef>, AllocError>
    ensures attachments { IfOk result (λ list.
        decisions_in list.items ≡ map (attaching host) fragments.now) }
{
    let mut attachments = Vec::new(alloc);
    for fragment in fragments {
        attachments.push(DecisionRef::Attach {
            host,
            fragment: *fragment,
        })?;
    }
    Ok(attachments)
}

/// The decisions of the member's own requirements: required bundles first, then imports, then others.
fn own_asks(
    alloc: Global,
    offers: &Offers,
    lists: &[Shared<Vec<CapRef>>],
    member: RevisionId,
) -> Result<Vec<DecisionRef>, AllocError>
    requires lists { AreListsOf offers.now member lists.now }
    ensures asks { IfOk result (λ asks. (P : Problem) → IsProblemIn offers.now P
        → IsTrue (is_current P.world.known member)
        → decisions_in asks.items ≡ asks_of P member (member ∷ [])) }
{
    let mut asks = Vec::new(alloc);
    add_owner(&mut asks, offers, lists, member, Kind::Bundle, member)?;
    add_owner(&mut asks, offers, lists, member, Kind::Package, member)?;
    add_owner(&mut asks, offers, lists, member, Kind::Other, member)?;
    Ok(asks)
}

/// The decisions on the member's fragments, or where there are none those of its requirements. The lists are those of the member.
pub fn first_decisions(
    alloc: Global,
    offers: &Offers,
    lists: &[Shared<Vec<CapRef>>],
    fragments: &[RevisionId],
    member: RevisionId,
) -> Result<Vec<DecisionRef>, AllocError>
    requires lists { AreListsOf offers.now member lists.now }
    ensures first { IfOk result (λ list. (P : Problem) → IsProblemIn offers.now P
        → IsTrue (is_current P.world.known member) → fragments.now ≡ matching P member
        → decisions_in list.items ≡ first_due P member) }
{
    if !fragments.is_empty() {
        return Ok(attachments_of(alloc, member, fragments)?);
    }
    Ok(own_asks(alloc, offers, lists, member)?)
}
