//! The live listeners: who is told of what, the events that each has still to be handed, and who is in a turn.
#![tactic(auto)]

mod answer;
mod counts;
mod kind_index;
mod listeners;
mod row;
mod sight;
mod slot;
mod slots;
mod tournament;

pub use answer::HandAnswer;
pub use listeners::Listeners;
pub use row::{ListenerRow, Waiting};
pub use sight::{ENTRY_PLACES, Sight, are_in_order};
