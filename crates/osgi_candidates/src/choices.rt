//! The problem of resolving a revision in a world.

ghost use Rattle.std.specs.Prelude.{◌≡◌, ◌↔◌, ◌<◌, ◌∷◌, [], IfOk, IsTrue, OnOk, Some, map};
ghost use Rattle.osgi_candidates.specs.computed.Choices.{AddsChoices, AreChoices};
ghost use Rattle.osgi_candidates.specs.computed.Fitting.{IsFit};
ghost use Rattle.osgi_resolver_theory.specs.WorldProblems.{asked_requirements};
ghost use Rattle.osgi_world.specs.Candidates.{CanBeAsked, IsProblem, IsResolvable};
ghost use Rattle.osgi_world.specs.Consistency.{Consistent};
ghost use Rattle.osgi_world.specs.Lookups.{known_at, requirement_count};
ghost use Rattle.osgi_world.specs.Payloads.{own_requirements};
ghost use Rattle.osgi_world.specs.Wirings.{IsWorld};
ghost use Rattle.osgi_world.specs.declared.problem.Choice.{Choice};

use crate::offer_index::OfferIndex;
use crate::offers::Offers;
use osgi_base::{List, RevisionId};
use osgi_lookup::KnownIndex;
use osgi_world::{Choice, Known, Problem, ReqRef, World};
use std::alloc::{AllocError, Global};

/// The problem of resolving the root: a row for each effective requirement of each current revision, with all of its candidates, the
/// preferred first. The rows stand in the order in which the revisions are known and the requirements stand in them; there is no
/// other row.
pub fn problem(alloc: Global, world: World, root: RevisionId) -> Result<Problem, AllocError>
    requires resolvable { IsResolvable world root }
    ensures world { IfOk result (λ problem. problem.world ≡ world) }
    ensures root { IfOk result (λ problem. problem.root ≡ root) }
    ensures problem { IfOk result IsProblem }
    ensures rows { IfOk result (λ problem.
        map (λ (row : Choice). row.requirement) problem.choices ≡ asked_requirements world.known) }
{
    let choices = choices_in(alloc, &world)?;
    Ok(Problem {
        world,
        root,
        choices,
    })
}

fn choices_in(alloc: Global, world: &World) -> Result<List<Choice>, AllocError>
    requires is_world { IsWorld world.now.known world.now.wirings }
    requires consistent { Consistent world.now.known world.now.wirings }
    ensures choices { IfOk result (λ choices. IsFit world.now → AreChoices world.now choices) }
{
    let mut index = OfferIndex::new(alloc);
    index.follow(alloc, world)?;
    let offers = Offers::new(alloc, world, &index)?;
    let mut choices = List::new(alloc)?;
    for known in world.known.items() {
        add_choices(alloc, &offers, &mut choices, known)?;
    }
    Ok(choices)
}

/// Adds the candidates of each effective requirement, if the revision is current.
fn add_choices(
    alloc: Global,
    offers: &Offers,
    choices: &mut List<Choice>,
    known: &Known,
) -> Result<(), AllocError>
    ensures added { OnOk result (IsFit offers.now
        → known_at offers.now.known known.now.id ≡ Some known.now
        → AddsChoices offers.now (own_requirements offers.now.known known.now.id)
        choices.old choices.new) }
{
    if !known.current {
        return Ok(());
    }
    for index in 0..known.revision.get().requirements.items().len() {
        let at = ReqRef {
            owner: known.id,
            index: index as u32,
        };
        add_choice(alloc, offers, choices, at)?;
    }
    Ok(())
}

/// Adds the candidates of the requirement, if it can be asked.
fn add_choice(
    alloc: Global,
    offers: &Offers,
    choices: &mut List<Choice>,
    at: ReqRef,
) -> Result<(), AllocError>
    ensures added { OnOk result (IsFit offers.now
        → at.index < requirement_count offers.now.known at.owner
        → AddsChoices offers.now (at ∷ []) choices.old choices.new) }
{
    if !has_candidates(offers.known(), at) {
        return Ok(());
    }
    choices.push(Choice {
        requirement: at,
        candidates: List::from(offers.listed(alloc, at)?),
    })?;
    Ok(())
}

/// Whether it is an effective requirement of a current revision.
fn has_candidates(known: &KnownIndex, at: ReqRef) -> bool
    ensures has { IsTrue result ↔ CanBeAsked known.now at }
{
    known.is_current(at.owner)
        && (at.index as usize) < known.requirement_count(at.owner)
        && known.is_effective(at)
}
