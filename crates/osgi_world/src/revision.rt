//! Revisions: what the manifest of a bundle says, and which files its folder has.

ghost use Rattle.std.specs.Prelude.{◌≤◌, ◌+◌, length};
ghost use Rattle.osgi_world.specs.declared.revision.TheConstants.{MAX_MEMBERS};

use crate::capability::Capability;
use crate::requirement::Requirement;
use osgi_base::{Copied, List, Text, copy_three, copy_two};
use osgi_version::Version;
use std::alloc::{AllocError, Global};

/// How many capabilities a revision may have, and how many requirements, dynamic imports among them.
pub const MAX_MEMBERS: usize = 4_294_967_294;

/// Which classes activate a lazy bundle when they are loaded: those of the packages that are included, all packages where
/// `include` is none, without those that are excluded.
#[derive(Drop)]
pub struct Policy {
    pub include: Option<List<Text>>,
    pub exclude: List<Text>,
}

impl Policy {
    ghost use Rattle.std.specs.Prelude.{◌≡◌, IfOk};

    pub fn copy(&self, alloc: Global) -> Result<Policy, AllocError>
        ensures same { IfOk result (λ copy. copy ≡ self.now) }
    {
        let (include, exclude) = copy_two(&self.include, &self.exclude, alloc)?;
        Ok(Policy { include, exclude })
    }
}

impl Copied for Policy {
    fn copied(&self, alloc: Global) -> Result<Policy, AllocError> {
        self.copy(alloc)
    }
}

/// A revision of a bundle.
pub struct Revision {
    /// The symbolic name.
    pub name: Text,
    pub version: Version,
    pub singleton: bool,
    /// Whether fragments may attach to it.
    pub attach: bool,
    /// The host that it is a fragment of, if it is a fragment.
    pub host: Option<Requirement>,
    /// The class that the manifest names as activator.
    pub activator: Option<Text>,
    pub capabilities: List<Capability>,
    /// Required bundles, then imports, then others, each in the order of the manifest.
    pub requirements: List<Requirement>,
    /// Imports that are wired when a class is loaded.
    pub dynamics: List<Requirement>,
    pub lazy: Option<Policy>,
    /// The paths of the folder's files.
    pub files: List<Text>,
    pub ghost capabilities_fit: { length capabilities ≤ MAX_MEMBERS },
    pub ghost requirements_fit: { length requirements + length dynamics ≤ MAX_MEMBERS },
}

/// Not derived, so that each exit at which one is dropped is a single call, which is cheap to prove.
impl Drop for Revision {
    fn drop(self) {
        let Revision {
            name: _,
            version: _,
            singleton: _,
            attach: _,
            host: _,
            activator: _,
            capabilities: _,
            requirements: _,
            dynamics: _,
            lazy: _,
            files: _,
        } = self;
    }
}

impl Revision {
    ghost use Rattle.std.specs.Prelude.{◌≡◌, IfOk};

    pub fn copy(&self, alloc: Global) -> Result<Revision, AllocError>
        ensures same { IfOk result (λ copy. copy ≡ self.now) }
    {
        let (capabilities, requirements, dynamics) = copy_three(
            &self.capabilities,
            &self.requirements,
            &self.dynamics,
            alloc,
        )?;
        let (activator, lazy, files) = copy_three(&self.activator, &self.lazy, &self.files, alloc)?;
        let (name, version, host) = copy_three(&self.name, &self.version, &self.host, alloc)?;
        Ok(Revision {
            name,
            version,
            singleton: self.singleton,
            attach: self.attach,
            host,
            activator,
            capabilities,
            requirements,
            dynamics,
            lazy,
            files,
        })
    }
}

impl Copied for Revision {
    fn copied(&self, alloc: Global) -> Result<Revision, AllocError> {
        self.copy(alloc)
    }
}
