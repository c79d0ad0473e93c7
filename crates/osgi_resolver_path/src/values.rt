//! The values of decisions, found by the decision.

ghost use Rattle.std.specs.Prelude.{◌≡◌, IfOk, reverse};
ghost use Rattle.osgi_resolver_decisions.specs.DecisionOf.{decision_of};
ghost use Rattle.osgi_resolver_path.specs.computed.Courses.{made_of};
ghost use Rattle.osgi_resolver_path.specs.computed.Valued.{AreValues, decision_at, value_in};

use crate::course::Mark;
use osgi_base::RevisionId;
use osgi_resolver_decisions::DecisionRef;
use std::alloc::{AllocError, Global};
use std::collections::BTreeMap;

/// A decision, in an order that tells all decisions apart.
#[derive(Clone, Copy, PartialEq, Eq, PartialOrd, Ord)]
pub enum Key {
    Attach {
        host: RevisionId,
        fragment: RevisionId,
    },
    Choose {
        host: RevisionId,
        owner: RevisionId,
        index: u32,
    },
    Pick {
        host: RevisionId,
        owner: RevisionId,
        index: u32,
        provider: RevisionId,
        declared_by: RevisionId,
        place: u32,
    },
}

/// The value of each decision that is made.
#[derive(Drop)]
pub struct Values {
    pub by_key: BTreeMap<Key, u64>,
}

fn key_of(decision: DecisionRef) -> Key
    ensures key { decision_at result ≡ decision_of decision }
{
    match decision {
        DecisionRef::Attach { host, fragment } => Key::Attach { host, fragment },
        DecisionRef::Choose { host, requirement } => {
            Key::Choose {
                host,
                owner: requirement.owner,
                index: requirement.index,
            }
        }
        DecisionRef::Pick {
            host,
            requirement,
            capability,
        } => {
            Key::Pick {
                host,
                owner: requirement.owner,
                index: requirement.index,
                provider: capability.provider,
                declared_by: capability.owner,
                place: capability.index,
            }
        }
    }
}

impl Values {
    /// Those of the marks. Of a decision with several marks it is that of the last.
    pub fn of(alloc: Global, marks: &[Mark]) -> Result<Values, AllocError>
        ensures values { IfOk result (λ values. AreValues values (made_of (reverse marks.now))) }
    {
        let mut by_key = BTreeMap::new(alloc);
        for mark in marks {
            by_key.insert(key_of(mark.decision), mark.value)?;
        }
        Ok(Values { by_key })
    }

    /// The value with which a decision was made, if it was.
    pub fn get(&self, decision: DecisionRef) -> Option<u64>
        ensures value { result ≡ value_in self.now (decision_of decision) }
    {
        self.by_key.get(&key_of(decision)).copied()
    }
}
