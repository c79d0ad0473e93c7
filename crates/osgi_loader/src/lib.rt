//! Loading: whose file a class comes from, and which bundles' services are assignable to which, by the wirings in force.
#![tactic(auto)]

mod assigning;
mod classes;
mod files;
mod givers;
mod loading;
mod lookups;
mod reach;
mod searched;
mod sources;
mod wires;

pub use assigning::{assignable, is_assignable};
pub use loading::load;
