//! The text of a session: replies written.
#![tactic(auto)]

mod entries;
mod ids;
mod lines;
mod refusals;
mod rendering;
mod rows;
mod wires;
mod writing;

pub use rendering::render;
