//! Look-ups that take no turn, and so leave no entry.

ghost use Rattle.std.specs.Prelude.{◌≡◌, IfOk};

use osgi_base::{Copied, List, ServiceId, Tag, Text, copy_three};
use osgi_model::Filter;
use std::alloc::{AllocError, Global};

/// What a line that peeks found: the services of the class that the filter, if there is one, matches, the best first, as
/// they were after the first `place` entries.
pub struct Peek {
    pub tag: Tag,
    pub class: Text,
    pub filter: Option<Filter>,
    pub place: u64,
    pub services: List<ServiceId>,
}

/// Not derived, so that each exit at which one is dropped is a single call, which is cheap to prove.
impl Drop for Peek {
    fn drop(self) {
        let Peek {
            tag: _,
            class: _,
            filter: _,
            place: _,
            services: _,
        } = self;
    }
}

impl Peek {
    pub fn copy(&self, alloc: Global) -> Result<Peek, AllocError>
        ensures same { IfOk result (λ copy. copy ≡ self.now) }
    {
        let (class, filter, services) = copy_three(
            &self.class,
            &self.filter,
            &self.services,
            alloc,
        )?;
        Ok(Peek {
            tag: self.tag,
            class,
            filter,
            place: self.place,
            services,
        })
    }
}

impl Copied for Peek {
    fn copied(&self, alloc: Global) -> Result<Peek, AllocError> {
        self.copy(alloc)
    }
}
