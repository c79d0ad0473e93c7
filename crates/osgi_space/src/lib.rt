//! The class spaces of a world: where packages come from, what `uses` implies, and whether wirings are consistent.
#![tactic(auto)]

mod class_spaces;
mod consistent;
mod disputed_rows;
mod first;
mod implied_constraints;
mod kept_rows;
mod naming;
mod questions;
mod seen_packages;
mod violation;

pub use class_spaces::{ClassSpaces, implied, sources};
pub use consistent::is_consistent;
pub use disputed_rows::DisputedRows;
pub use first::first_violation;
pub use implied_constraints::{Implied, implied_in};
pub use kept_rows::KeptRows;
pub use questions::sources_in;
pub use seen_packages::{PackageSources, space_in};
pub use violation::Violation;
