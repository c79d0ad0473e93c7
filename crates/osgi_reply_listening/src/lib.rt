//! What operations on listeners, and the begin and the end of a hand, are answered, and what they change in the tables.
#![tactic(auto)]

mod handing;
mod listening;

pub use handing::{end_hand, hand};
pub use listening::{add_listener, remove_listener};
