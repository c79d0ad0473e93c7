//! The table of bundles, and the depot with an index by location.
#![tactic(auto)]

mod directory;
mod indexed_depot;
mod kept;
mod life;
mod table;
mod targets;

pub use indexed_depot::IndexedDepot;
pub use kept::BundleKept;
pub use life::Begun;
pub use table::Table;
