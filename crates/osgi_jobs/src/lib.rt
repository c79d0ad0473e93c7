//! The jobs that are queued, the oldest first.
#![tactic(auto)]

mod counts;
mod job;
mod jobs;

pub use job::QueuedJob;
pub use jobs::Jobs;
