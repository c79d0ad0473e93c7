//! The top call: the words of the command line, a console script read, run and rendered, and the status.
#![tactic(auto)]

mod framework;
mod lines;
mod session;
mod words;

pub use framework::framework_main;
pub use session::{FAULTY_WORDS, Finished, NO_MEMORY, Session};
