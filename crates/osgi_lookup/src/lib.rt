//! What is known of revisions, found by their ids without a scan.
#![tactic(auto)]

mod capabilities;
mod hosts;
mod index;
mod namespaces;
mod requirements;
mod revisions;

pub use hosts::matches_host;
pub use index::KnownIndex;
pub use namespaces::{is_bundle, is_package};
