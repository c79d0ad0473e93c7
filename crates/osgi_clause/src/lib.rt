//! What the clauses of a manifest's headers make, or the first faulty one of them.
#![tactic(auto)]

mod bundles;
mod capabilities;
mod effective;
mod fault;
mod host;
mod lone;
mod members;
mod namespaces;
mod naming;
mod packages;
mod ranges;
mod repeats;
mod requirements;

pub use bundles::required_bundles;
pub use capabilities::provided_capabilities;
pub use fault::ClauseFault;
pub use host::hosted;
pub use naming::{Naming, named};
pub use packages::{exported, imported};
pub use requirements::required_capabilities;
