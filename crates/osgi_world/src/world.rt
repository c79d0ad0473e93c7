//! Worlds: the revisions that are known, and the wirings of those that are resolved.

ghost use Rattle.std.specs.Prelude.{◌≡◌, IfOk};

use crate::revision::Revision;
use crate::wiring::Wiring;
use osgi_base::{BundleId, Copied, List, RevisionId, Shared};
use std::alloc::{AllocError, Global};

/// A known revision. Copies share what the revision says.
#[derive(Drop)]
pub struct Known {
    pub id: RevisionId,
    pub bundle: BundleId,
    /// Whether it is what the bundle's last install or update brought, and the bundle is live.
    pub current: bool,
    pub revision: Shared<Revision>,
}

impl Known {
    pub fn copy(&self, alloc: Global) -> Result<Known, AllocError>
        ensures same { IfOk result (λ copy. copy ≡ self.now) }
    {
        Ok(Known {
            id: self.id,
            bundle: self.bundle,
            current: self.current,
            revision: self.revision.copy(alloc)?,
        })
    }
}

impl Copied for Known {
    fn copied(&self, alloc: Global) -> Result<Known, AllocError> {
        self.copy(alloc)
    }
}

/// What is known of bundles, and how they are wired. A revision is in force where it has a wiring.
#[derive(Drop)]
pub struct World {
    pub known: List<Known>,
    pub wirings: List<Wiring>,
}

impl World {
    pub fn copy(&self, alloc: Global) -> Result<World, AllocError>
        ensures same { IfOk result (λ copy. copy ≡ self.now) }
    {
        Ok(World {
            known: self.known.copy(alloc)?,
            wirings: self.wirings.copy(alloc)?,
        })
    }
}

impl Copied for World {
    fn copied(&self, alloc: Global) -> Result<World, AllocError> {
        self.copy(alloc)
    }
}
