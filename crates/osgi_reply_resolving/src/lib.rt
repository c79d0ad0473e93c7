//! What operations on bundles and their wirings answer, and change in the tables.
#![tactic(auto)]

mod installing;
mod resolving;
mod wires;

pub use installing::install;
pub use resolving::resolve;
pub use wires::list_wires;
