//! The text of the console: lines read as commands.
#![tactic(auto)]

mod arguments;
mod commands;
mod input_lines;

pub use input_lines::parse;
