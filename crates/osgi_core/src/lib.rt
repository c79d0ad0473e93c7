//! The machine: it applies operations one at a time and keeps the history of what it answered.
#![tactic(auto)]

mod in_hall;
mod listening;
mod machine;
mod telling;

pub use in_hall::Ruling;
pub use listening::due;
pub use machine::Core;
pub use telling::told_once;
