//! The packages that a bundle imports and exports, from the clauses of its headers.
#![tactic(auto)]

mod attributes;
mod distinct;
mod exporting;
mod fault;
mod importing;
mod parameters;

pub use attributes::{has_double, read_attributes};
pub use distinct::are_distinct;
pub use exporting::exports;
pub use fault::{PackageFault, PackageKind};
pub use importing::{imports, range};
pub use parameters::{directive_value, is_directed, version_text};
