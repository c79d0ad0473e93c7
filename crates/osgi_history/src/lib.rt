//! What a history says, read off its entries by plain scans, for tests.
#![tactic(auto)]

mod handings;
mod scans;
mod states;

pub use handings::handed;
pub use scans::{live, uses};
pub use states::state;
