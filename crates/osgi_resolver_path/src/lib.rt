//! How far a search for a resolve has come: the decisions that are made, and the wirings that they make.
#![tactic(auto)]

mod adding;
mod attached;
mod course;
mod growing;
mod last;
mod linked;
mod moves;
mod moving;
mod opening;
mod path;
mod queue;
mod step;
mod values;
mod views;
mod wired;

pub use course::Mark;
pub use last::Last;
pub use path::Path;
pub use wired::Wired;
