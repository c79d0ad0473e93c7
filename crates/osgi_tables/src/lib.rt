//! The tables of the running state, and the changes that operations make of them: whether who asks may ask, what happens by a change
//! and who is told of it, and the clean up of a bundle.
#![tactic(auto)]

mod askers;
mod change;
mod depot_rows;
mod handing;
mod happenings;
mod life;
mod making;
mod tables;

pub use askers::asker_refusal;
pub use change::Change;
pub use depot_rows::depot_row;
pub use tables::Tables;
