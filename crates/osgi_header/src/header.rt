//! The headers of a manifest, as data.

ghost use Rattle.std.specs.Prelude.{◌≡◌, IfOk};

use osgi_base::{Copied, Text};
use std::alloc::{AllocError, Global};

/// A header: its name as the manifest spells it, and its value.
#[derive(Drop, PartialEq, Eq)]
pub struct Header {
    pub name: Text,
    pub value: Text,
}

impl Header {
    pub fn copy(&self, alloc: Global) -> Result<Header, AllocError>
        ensures same { IfOk result (λ copy. copy ≡ self.now) }
    {
        Ok(Header {
            name: self.name.copy(alloc)?,
            value: self.value.copy(alloc)?,
        })
    }
}

impl Copied for Header {
    fn copied(&self, alloc: Global) -> Result<Header, AllocError> {
        self.copy(alloc)
    }
}
