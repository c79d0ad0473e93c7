//! What a world offers to each owner of requirements: its candidates, the fragments that may be attached to it, its first
//! decisions, as far as it was asked for.
#![tactic(auto)]

mod asks;
mod decision_ref;
mod decisions;
mod first;
mod kind;
mod lists;
mod owned;
mod payload;
mod plain;
mod same;

pub use decision_ref::DecisionRef;
pub use decisions::Decisions;
pub use lists::Lists;
pub use owned::{Owned, is_of_space, owned_with};
pub use payload::asks_of;
