//! The registry of services: which are live, who registered them, and who uses them.
#![tactic(auto)]

mod assignability;
mod finding;
mod held;
mod live;
mod registry;
mod service_test;
mod services;

pub use assignability::Assignability;
pub use osgi_ops::Service;
pub use osgi_registry_index::ranking;
pub use registry::Registry;
pub use services::Services;
