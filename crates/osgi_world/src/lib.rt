//! The data of the module layer: capabilities and requirements, revisions of bundles, and how they are wired.
#![tactic(auto)]

mod capability;
mod manifest_fault;
mod problem;
mod requirement;
mod revision;
mod shared_range;
mod system;
mod wiring;
mod world;

pub use capability::Capability;
pub use manifest_fault::{ManifestFault, ManifestKind};
pub use problem::{Choice, Problem};
pub use requirement::Requirement;
pub use revision::{MAX_MEMBERS, Policy, Revision};
pub use shared_range::SharedRange;
pub use system::{known_system, system_revision};
pub use wiring::{CapRef, ReqRef, Wire, Wiring};
pub use world::{Known, World};
