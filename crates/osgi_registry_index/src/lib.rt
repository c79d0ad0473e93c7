//! What the registry keeps of services beside their rows: their places by class, those of each bundle, slots by id, and the
//! counts of their uses. And what the framework reads and sets in their properties, by which they have their places.
#![tactic(auto)]

mod bundle_services;
mod class_index;
mod id_slots;
mod others;
mod place;
mod properties;
mod uses;

pub use bundle_services::BundleServices;
pub use class_index::ClassIndex;
pub use id_slots::IdSlots;
pub use place::Place;
pub use properties::{FrameworkTexts, has_twins, ranking};
pub use uses::Uses;
