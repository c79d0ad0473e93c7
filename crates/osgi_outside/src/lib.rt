//! What lies outside a framework: where bytes come from and go to, where bundles are found, and a gate
//! at which a test can hold a lane. Each is a trait, with forms in memory whose calls fail on demand.
#![tactic(auto)]

mod counted;
mod dir_shelf;
mod dir_walk;
mod fault_script;
mod gate;
mod gathered;
mod input;
mod memory_shelf;
mod memory_sink;
mod memory_source;
mod shelf;
mod sink;
mod source;
mod std_ends;
mod writing;

pub use counted::Counted;
pub use dir_shelf::{DirShelf, MAX_FOLDERS, MAX_LEVELS};
pub use gate::{Gate, OpenGate, Point};
pub use input::{Input, read_all};
pub use memory_shelf::MemoryShelf;
pub use memory_sink::MemorySink;
pub use memory_source::MemorySource;
pub use shelf::{Found, MAX_BYTES, MAX_FILES, Shelf};
pub use sink::Sink;
pub use source::{Failed, Source};
pub use std_ends::{StdSink, StdSource};
pub use writing::write_all;
