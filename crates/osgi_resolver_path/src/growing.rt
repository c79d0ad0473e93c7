//! One decision more: who joins, and which decisions are due then.

ghost use Rattle.std.specs.Prelude.{◌≡◌, ◌==◌, ◌||◌, ◌++◌, All, IfOk, IsTrue, OnOk, flat_map, reverse};
ghost use Rattle.osgi_world.specs.Lookups.{is_current};
ghost use Rattle.std.specs.List.{list_any};
ghost use Rattle.std.specs.Option.{option_to_list};
ghost use Rattle.osgi_base.specs.declared.ids.RevisionId.{RevisionId};
ghost use Rattle.osgi_world.specs.Decisions.{is_yes, value_made};
ghost use Rattle.osgi_world.specs.DueDecisions.{is_in_force, provider_of, pull_in};
ghost use Rattle.osgi_world.specs.declared.problem.Problem.{Problem};
ghost use Rattle.osgi_resolver_decisions.specs.DecisionOf.{decision_of};
ghost use Rattle.osgi_resolver_decisions.specs.computed.Asks.{decisions_in, first_due};
ghost use Rattle.osgi_resolver_path.specs.computed.Courses.{made_of};
ghost use Rattle.osgi_resolver_decisions.specs.computed.Known.{IsProblemIn, Knows, KnowsMore};
ghost use Rattle.osgi_resolver_path.specs.computed.Placed.{ArePlaces, IsNoMember};
ghost use Rattle.osgi_resolver_path.specs.computed.Steps.{steps_in};

use crate::course::{Course, Mark};
use crate::step::Step;
use osgi_base::RevisionId;
use osgi_candidates::Offers;
use osgi_resolver_decisions::{DecisionRef, Decisions, Lists};
use std::alloc::{AllocError, Global};

/// Whether the revision has a wiring.
fn is_in_force(offers: &Offers, revision: RevisionId) -> bool
    ensures in_force { result ≡ is_in_force offers.now.wirings revision }
{
    offers.is_in_force(revision)
}

/// Whether the revision does not join: it is in force, or a member.
fn stays(offers: &Offers, course: &Course, revision: RevisionId) -> bool
    requires placed { ArePlaces course.now.places course.now.ids.items }
    ensures stays { result ≡ is_in_force offers.now.wirings revision || list_any (λ k.
        k.0 == revision.0) course.now.ids.items }
{
    is_in_force(offers, revision) || course.has(revision)
}

/// Who joins the members by a step: the provider of a wire, if it is neither in force nor a member.
pub fn joining_of(offers: &Offers, course: &Course, step: Option<Step>) -> Option<RevisionId>
    requires placed { ArePlaces course.now.places course.now.ids.items }
    ensures joining { (P : Problem) → IsProblemIn offers.now P
        → course.now.ids.items ++ option_to_list result
        ≡ pull_in P course.now.ids.items (flat_map provider_of (steps_in step)) }
    ensures new { IsNoMember result course.now.ids.items }
{
    let Some(Step::Wired { wire, .. }) = step else {
        return None;
    };
    let provider = wire.capability.provider;
    if stays(offers, course, provider) {
        None
    } else {
        Some(provider)
    }
}

/// The value with which a decision was made, if it was.
pub fn value_of(marks: &[Mark], decision: DecisionRef) -> Option<u64>
    ensures value { result ≡ value_made (made_of (reverse marks.now)) (decision_of decision) }
{
    let mut left = marks.len();
    while left > 0 {
        left -= 1;
        let mark = marks[left];
        if mark.decision.is_same(decision) {
            return Some(mark.value);
        }
    }
    None
}

/// Whether a decision is made with its first value, yes.
pub fn is_first(value: Option<u64>) -> bool
    ensures first { result ≡ is_yes value }
{
    match value {
        Some(value) => value == 0,
        None => false,
    }
}

/// Asks for the candidates of all owners.
pub fn learn_all(alloc: Global, lists: &mut Lists, owners: &[RevisionId]) -> Result<(), AllocError>
    ensures nothing_lost { KnowsMore lists.old lists.new }
    ensures known { OnOk result (All (Knows lists.new) owners.now) }
{
    for owner in owners {
        lists.learn(alloc, *owner)?;
    }
    Ok(())
}

/// The decisions of a member of which nothing is decided yet: on its fragments, or where there are none on its requirements.
pub fn first_of(
    alloc: Global,
    lists: &mut Lists,
    member: RevisionId,
) -> Result<Decisions, AllocError>
    ensures nothing_lost { KnowsMore lists.old lists.new }
    ensures first { IfOk result (λ list. (P : Problem) → IsProblemIn lists.old.offers P
        → IsTrue (is_current P.world.known member) → decisions_in list ≡ first_due P member) }
{
    lists.learn(alloc, member)?;
    lists.first_of(member)
}
