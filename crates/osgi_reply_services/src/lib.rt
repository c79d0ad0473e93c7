//! What operations on services answer, and change in the registry. Whether who asks may ask is not looked at here.
#![tactic(auto)]

mod change;
pub mod services;

pub use change::ServiceChange;
