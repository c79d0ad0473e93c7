//! Tests of the hall, with a machine that counts.
#![tactic(auto)]

mod counter;
mod crowd;
mod looking;
#[cfg(test)]
mod tests;

pub use counter::{Answer, Counter};
pub use crowd::{Caller, Crowd, Start, run};
pub use looking::look_and_call;
