//! Fragments: which hosts they match, and what a host offers and needs with them.
#![tactic(auto)]

pub mod hosts;
pub mod payloads;

pub use hosts::host_matches;
pub use payloads::{Hosted, payload};
