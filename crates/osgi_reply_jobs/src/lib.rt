//! What operations on jobs are answered, and what they change in the tables.
#![tactic(auto)]

mod queueing;

pub use queueing::{end_job, queue_job, take_job};
