//! The answer to a problem that is given, searched for over linked rows of its candidates.
#![tactic(auto)]

mod rivals;
mod rows_walk;
mod solving;

pub use solving::solve;
