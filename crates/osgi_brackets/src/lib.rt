//! The open brackets of each caller: the hands, starts, stops, jobs and makes that it began and has not ended.
#![tactic(auto)]

mod bracket;
mod brackets;

pub use bracket::{BracketKind, Making, OpenBracket, ends, opens};
pub use brackets::Brackets;
