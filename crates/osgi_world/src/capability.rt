//! Capabilities: what a bundle offers to others.

ghost use Rattle.std.specs.Prelude.{◌≡◌, IfOk};

use osgi_base::{Copied, List, Shared, Text, copy_three, copy_two};
use osgi_model::Attributes;
use std::alloc::{AllocError, Global};

/// A capability of a revision: in the package namespace a package that it exports, in the bundle namespace the bundle
/// itself, in others what it provides. There the name is that of the namespace. What the capabilities of a clause have in common
/// they share.
#[derive(Drop)]
pub struct Capability {
    pub namespace: Text,
    pub name: Text,
    pub attributes: Shared<Attributes>,
    /// The packages that the types of an exported package name.
    pub uses: Shared<List<Text>>,
    /// The attributes that an import has to give.
    pub mandatory: Shared<List<Text>>,
}

impl Capability {
    pub fn copy(&self, alloc: Global) -> Result<Capability, AllocError>
        ensures same { IfOk result (λ copy. copy ≡ self.now) }
    {
        let (attributes, uses, mandatory) = copy_three(
            &self.attributes,
            &self.uses,
            &self.mandatory,
            alloc,
        )?;
        let (namespace, name) = copy_two(&self.namespace, &self.name, alloc)?;
        Ok(Capability {
            namespace,
            name,
            attributes,
            uses,
            mandatory,
        })
    }
}

impl Copied for Capability {
    fn copied(&self, alloc: Global) -> Result<Capability, AllocError> {
        self.copy(alloc)
    }
}
