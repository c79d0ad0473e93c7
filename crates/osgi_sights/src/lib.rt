//! Which listeners see what happens at an entry, as which event.
#![tactic(auto)]

mod askers;
mod attributes;
mod happened;
mod happening;
mod merged;
mod onlookers;
mod telling;

pub use happened::Happened;
pub use happening::Happening;
pub use telling::sights;
