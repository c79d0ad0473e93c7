//! What operations answer by the class spaces of the wirings in force.
#![tactic(auto)]

mod finding;
mod loading;

pub use finding::find;
pub use loading::load;
