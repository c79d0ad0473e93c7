//! Versions and ranges of versions, read exactly by their grammar.
//!
//! `version` and `range` are the public types with their calls, `qualifier` and `fault` what they hold and answer.
//! `reader` and `examine` read a text by any machine that keeps the laws of a reader, `version_state` and `range_state`
//! are the two machines.
#![tactic(auto)]

mod bounds;
mod bytes;
mod comparing;
mod examine;
mod fault;
mod printing;
mod qualifier;
mod range;
mod range_state;
mod read;
mod reader;
mod version;
mod version_state;

pub use fault::VersionFault;
pub use qualifier::Qualifier;
pub use range::VersionRange;
pub use version::{MAX_NUMBER, Version};
