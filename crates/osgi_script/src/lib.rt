//! Activators' scripts, read from their text.
#![tactic(auto)]

mod heads;
mod lines;
mod script;
mod script_text;
mod statements;
mod taken;

pub use osgi_session::{Part, Script, Statement};
pub use script::{MAX_STATEMENTS, ScriptFault};
pub use script_text::parse;
