//! The plan of a command: asked for its next step, it says which operation to do, when to hand events, which section to run,
//! and how it ended.
#![tactic(auto)]

mod at;
mod head;
mod kept;
mod last;
mod levels;
mod next;
mod opening;
mod plan;
mod refreshes;
mod replies;
mod rest;
mod starts;
mod stirring;
mod stops;
mod updates;

pub use last::Last;
pub use next::Next;
pub use plan::Plan;
