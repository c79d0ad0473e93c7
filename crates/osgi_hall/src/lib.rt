//! The hall: a ticket lock round one machine, with the history of all that its callers had the machine do. A caller calls with
//! its pass; a call waits for its turn, has the machine do one operation, and learns the history so far.
#![tactic(auto)]

mod board;
mod entry;
mod hall;
mod machine;
mod pass;
mod steps;

pub use entry::{Entry, Joined};
pub use hall::{Closed, Hall, Open};
pub use machine::Machine;
pub use pass::Pass;
