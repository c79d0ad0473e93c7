//! The lines of a session, the commands in them, and the scripts of bundles: data only.
#![tactic(auto)]

mod command;
mod line;
mod script;
mod scripts;
mod statement;

pub use command::Command;
pub use line::{Content, Line};
pub use script::{Part, Script};
pub use scripts::Scripts;
pub use statement::Statement;
