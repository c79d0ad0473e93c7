//! The search for the first good word of a problem: depth first, past the words that are hopeless.
#![tactic(auto)]

mod depth_first;
mod pace;
mod steps;
mod strides;
mod walker;

pub use depth_first::{Outcome, search};
pub use walker::Walker;
