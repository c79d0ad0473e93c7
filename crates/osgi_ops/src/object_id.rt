//! The numbers of service objects that factories made.

use osgi_base::Copied;
use std::alloc::{AllocError, Global};

/// An object that a factory made. Ids count from 1 and are never used again.
#[derive(Clone, Copy, PartialEq, Eq, PartialOrd, Ord)]
pub struct ObjectId(pub u64);

impl Copied for ObjectId {
    fn copied(&self, _alloc: Global) -> Result<ObjectId, AllocError> {
        Ok(*self)
    }
}
