//! The state of a resolver's search: wirings to which single wires and fragments are added and taken back, and the clashes of
//! uses among settled revisions.
#![tactic(auto)]

mod clash;
mod spaces;
mod trail;

pub use clash::Clash;
pub use spaces::Spaces;
