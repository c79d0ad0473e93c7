//! Wires and payloads as rows of numbers, found by revision and by package: what the class spaces of a world are read from.
#![tactic(auto)]

mod added;
mod digest;
mod grouped;
mod keys;
mod name_groups;
mod named;
mod names;
mod number_groups;
mod rows;
mod spots;
mod table;
mod world_rows;

pub use added::Added;
pub use grouped::Grouped;
pub use named::Named;
pub use names::Names;
pub use rows::{Attachment, Export, Import, Required, Rows, Use};
pub use spots::Spots;
pub use table::Table;
pub use world_rows::WorldRows;
