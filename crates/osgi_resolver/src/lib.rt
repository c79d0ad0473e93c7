//! The resolver: which wirings a bundle is to get, or why it can have none.
#![tactic(auto)]

mod answer;
mod answering;
mod index;
mod indexed_wirings;
mod lacking;
mod refusals;
mod resolving;
mod walk;

pub use answer::{Answer, Cause};
pub use answering::answer_of;
pub use indexed_wirings::IndexedWirings;
pub use resolving::resolve;
pub use walk::Walk;
