//! What starts and stops of bundles answer, and change in the tables.
#![tactic(auto)]

mod starting;
mod stopping;

pub use starting::{begin_start, end_start, wish_start};
pub use stopping::{begin_stop, end_stop};
