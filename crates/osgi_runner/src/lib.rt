//! Commands as they run: plan after plan, section after section, drain after drain, and then the jobs.
#![tactic(auto)]

mod caller;
mod frames;
mod lines;
mod replies;
mod runner;
mod seated;
mod sections;
mod statements;
mod steps;

pub use caller::Caller;
pub use lines::{Ended, drain_line, run_line};
pub use runner::Runner;
