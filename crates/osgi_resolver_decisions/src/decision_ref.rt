//! The decisions of a resolve.

ghost use Rattle.std.specs.Prelude.{◌≡◌, ◌&&◌, ◌==◌};
ghost use Rattle.osgi_world.specs.Candidates.{same_place};
ghost use Rattle.osgi_world.specs.Decisions as decisions;
ghost use Rattle.osgi_world.specs.Decisions.{same_capability, same_decision};

use osgi_base::RevisionId;
use osgi_world::{CapRef, ReqRef};

#[derive(Clone, Copy, PartialEq, Eq)]
pub enum DecisionRef {
    /// Whether the fragment is attached to the host.
    Attach {
        host: RevisionId,
        fragment: RevisionId,
    },
    /// Which of its candidates the requirement of the host's payload gets.
    Choose {
        host: RevisionId,
        requirement: ReqRef,
    },
    /// Whether the requirement, which may have several wires, gets this one.
    Pick {
        host: RevisionId,
        requirement: ReqRef,
        capability: CapRef,
    },
}

fn is_same_requirement(one: ReqRef, other: ReqRef) -> bool
    ensures same { result ≡ same_place one other }
{
    one.owner.0 == other.owner.0 && one.index == other.index
}

fn is_same_capability(one: CapRef, other: CapRef) -> bool
    ensures same { result ≡ same_capability one other }
{
    one.provider.0 == other.provider.0 && (one.owner.0 == other.owner.0 && one.index == other.index)
}

impl DecisionRef {
    ghost use Rattle.osgi_resolver_decisions.specs.DecisionOf.{decision_of};

    /// The member whose decision it is.
    pub fn host(self) -> RevisionId
        ensures host { result ≡ decisions.host (decision_of self) }
    {
        match self {
            DecisionRef::Attach { host, .. }
            | DecisionRef::Choose { host, .. }
            | DecisionRef::Pick { host, .. } => host,
        }
    }

    /// Whether this is the same decision.
    pub fn is_same(self, other: DecisionRef) -> bool
        ensures same { result ≡ same_decision (decision_of self) (decision_of other) }
    {
        match (self, other) {
            (
                DecisionRef::Attach { host, fragment },
                DecisionRef::Attach {
                    host: other_host,
                    fragment: other_fragment,
                },
            ) => host.0 == other_host.0 && fragment.0 == other_fragment.0,
            (
                DecisionRef::Choose { host, requirement },
                DecisionRef::Choose {
                    host: other_host,
                    requirement: other_requirement,
                },
            ) => host.0 == other_host.0 && is_same_requirement(requirement, other_requirement),
            (
                DecisionRef::Pick {
                    host,
                    requirement,
                    capability,
                },
                DecisionRef::Pick {
                    host: other_host,
                    requirement: other_requirement,
                    capability: other_capability,
                },
            ) => {
                host.0 == other_host.0
                    && (is_same_requirement(requirement, other_requirement)
                        && is_same_capability(capability, other_capability))
            }
            _ => false,
        }
    }
}
