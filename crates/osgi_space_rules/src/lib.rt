//! Whether wirings keep the rules of consistency, that on `uses` apart.
#![tactic(auto)]

mod doubles;
mod entries;
mod imports;
mod indexed;
mod keys;
mod names;
mod payload;
mod rules;
mod singletons;
mod sorted;
mod wires;

pub use doubles::are_names_single;
pub use rules::keeps_wiring_rules;
