//! Whole manifests: what a bundle's folder means, or the first fault of its manifest.
#![tactic(auto)]

mod activator;
mod files;
mod folder;
mod headers;
mod host;
mod lists;
mod meaning;
mod members;
mod naming;
mod said;
mod sections;
mod versions;

pub use files::manifest_file;
pub use folder::{read, read_meaning};
pub use meaning::Meaning;
