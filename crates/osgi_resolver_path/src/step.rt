//! What the value of a decision adds to the wirings.

ghost use Rattle.std.specs.Prelude.{◌≡◌, ◌∷◌, [], map, slice_get};
ghost use Rattle.osgi_world.specs.Lists.{nth_list, item_at};
ghost use Rattle.osgi_world.specs.Decisions as decisions;
ghost use Rattle.osgi_world.specs.Decisions.{adds, wired_to};
ghost use Rattle.osgi_world.specs.declared.problem.Problem.{Problem};
ghost use Rattle.osgi_resolver_decisions.specs.DecisionOf.{decision_of};
ghost use Rattle.osgi_resolver_decisions.specs.computed.Known.{IsProblemIn};
ghost use Rattle.osgi_resolver_path.specs.computed.Steps.{IsListed, step_in, steps_in};

use osgi_base::RevisionId;
use osgi_resolver_decisions::{DecisionRef, Lists};
use osgi_world::{CapRef, ReqRef, Wire};

/// A fragment to a host, or a wire to a revision.
#[derive(Clone, Copy, PartialEq, Eq)]
pub enum Step {
    Attached {
        host: RevisionId,
        fragment: RevisionId,
    },
    Wired {
        revision: RevisionId,
        wire: Wire,
    },
}

fn wired(revision: RevisionId, requirement: ReqRef, capability: CapRef) -> Step
    ensures wired { step_in result ≡ wired_to revision requirement capability }
{
    Step::Wired {
        revision,
        wire: Wire {
            requirement,
            capability,
        },
    }
}

/// The step for the first value, yes, and none for any other.
fn first_alone(value: u64, step: Step) -> Option<Step>
    ensures step { steps_in result ≡ nth_list ((step_in step ∷ []) ∷ [] ∷ []) value }
{
    if value == 0 { Some(step) } else { None }
}

/// The candidate at this place, if there is one.
pub fn candidate_at(candidates: &[CapRef], value: u64) -> Option<CapRef>
    ensures candidate { result ≡ slice_get candidates.now value }
{
    candidates.get(value as usize).copied()
}

/// The step to the candidate at this place, if there is one.
fn chosen(host: RevisionId, requirement: ReqRef, candidates: &[CapRef], value: u64) -> Option<Step>
    ensures step { steps_in result
        ≡ map (wired_to host requirement) (item_at candidates.now value) }
{
    match candidate_at(candidates, value) {
        Some(capability) => Some(wired(host, requirement, capability)),
        None => None,
    }
}

/// What the value adds.
pub fn step_of(lists: &Lists, decision: DecisionRef, value: u64) -> Option<Step>
    ensures adds { (P : Problem) → IsProblemIn lists.now.offers P → IsListed lists.now P decision
        → steps_in result ≡ adds P (decision_of decision) value }
{
    match decision {
        DecisionRef::Attach { host, fragment } => first_alone(
            value,
            Step::Attached { host, fragment },
        ),
        DecisionRef::Choose { host, requirement } => {
            chosen(host, requirement, lists.candidates(requirement), value)
        }
        DecisionRef::Pick {
            host,
            requirement,
            capability,
        } => first_alone(value, wired(host, requirement, capability)),
    }
}

/// How many values the decision has.
pub fn arity(lists: &Lists, decision: DecisionRef) -> u64
    ensures arity { (P : Problem) → IsProblemIn lists.now.offers P → IsListed lists.now P decision
        → result ≡ decisions.arity P (decision_of decision) }
{
    match decision {
        DecisionRef::Attach { .. } | DecisionRef::Pick { .. } => 2,
        DecisionRef::Choose { requirement, .. } => {
            let candidates = lists.candidates(requirement).len() as u64;
            if lists.offers().known().is_optional(requirement) {
                candidates + 1
            } else {
                candidates
            }
        }
    }
}
