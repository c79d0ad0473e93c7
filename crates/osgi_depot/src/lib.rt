//! The depot of a session and its scripts: the folders that the lines name, each read once before the first line runs.
#![tactic(auto)]

mod folders;
mod locations;
mod storing;

pub use folders::{Folders, read_depot};
