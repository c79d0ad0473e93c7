//! Decisions that have several holders.

ghost use Rattle.std.specs.Prelude.{◌≡◌, [], IfOk};

use crate::decision_ref::DecisionRef;
use std::alloc::{AllocError, Global};
use std::marker::Model;
use std::rc::Rc;

/// Decisions that do not change, shared by a count of holders: one holder more costs the same however many they are. Contracts see
/// their list.
#[derive(Drop)]
pub struct Decisions {
    /// None where there are none.
    shared: Option<Rc<Vec<DecisionRef>>>,
}

impl Model for Decisions {
    ghost use Rattle.std.specs.Prelude.{List, []};
    ghost use Rattle.std.specs.Option.{option_map_or};
    ghost use Rattle.osgi_resolver_decisions.specs.declared.decision_ref.DecisionRef.{DecisionRef};

    ghost Value = { List DecisionRef };

    ghost view = { λ d. option_map_or (λ shared. shared.value.items) d.shared [] };
}

impl Decisions {
    pub fn none() -> Decisions
        ensures none { result ≡ [] }
    {
        Decisions { shared: None }
    }

    pub fn of(alloc: Global, list: Vec<DecisionRef>) -> Result<Decisions, AllocError>
        ensures list { IfOk result (λ decisions. decisions ≡ list.items) }
    {
        if list.is_empty() {
            return Ok(Decisions::none());
        }
        Ok(Decisions {
            shared: Some(Rc::new(alloc, list)?),
        })
    }

    /// The same decisions, for one holder more.
    pub fn share(&self) -> Result<Decisions, AllocError>
        ensures same { IfOk result (λ decisions. decisions ≡ self.now) }
    {
        match &self.shared {
            Some(shared) => Ok(Decisions {
                shared: Some(shared.clone()?),
            }),
            None => Ok(Decisions::none()),
        }
    }

    pub fn items(&self) -> &[DecisionRef]
        ensures items { result.now ≡ self.now }
    {
        match &self.shared {
            Some(shared) => shared.as_ref().as_slice(),
            None => &[],
        }
    }
}
