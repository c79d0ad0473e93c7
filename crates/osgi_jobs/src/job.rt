//! A job that waits in the queue.

use osgi_base::{BundleId, Text};

/// A job of a bundle: the section of this name in the bundle's script.
#[derive(Drop)]
pub struct QueuedJob {
    pub owner: BundleId,
    pub name: Text,
}
