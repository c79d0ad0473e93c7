//! Requirements: what a bundle needs of others.

ghost use Rattle.std.specs.Prelude.{◌≡◌, IfOk};

use crate::shared_range::SharedRange;
use osgi_base::{Copied, Shared, Text, copy_three, copy_two};
use osgi_model::{Attributes, Filter};
use std::alloc::{AllocError, Global};

/// A requirement of a revision: in the package namespace an import, in the bundle namespace a required bundle or a
/// fragment's host, in others a filter over what is provided. There the name is that of the namespace. What the requirements of a
/// clause have in common they share.
pub struct Requirement {
    pub namespace: Text,
    pub name: Text,
    /// The versions of the package or of the bundle.
    pub range: SharedRange,
    /// The symbolic name of the exporting bundle, where an import gives it.
    pub from_name: Option<Text>,
    /// The versions of the exporting bundle.
    pub from_range: SharedRange,
    /// The attributes that an export has to have with equal values.
    pub equal: Shared<Attributes>,
    pub filter: Option<Shared<Filter>>,
    pub optional: bool,
    /// Whether it may have several wires.
    pub multiple: bool,
    /// Whether those who require the bundle see what it requires here.
    pub reexport: bool,
    /// Whether it takes part in resolving.
    pub effective: bool,
}

/// Not derived, so that each exit at which one is dropped is a single call, which is cheap to prove.
impl Drop for Requirement {
    fn drop(self) {
        let Requirement {
            namespace: _,
            name: _,
            range: _,
            from_name: _,
            from_range: _,
            equal: _,
            filter: _,
            optional: _,
            multiple: _,
            reexport: _,
            effective: _,
        } = self;
    }
}

impl Requirement {
    pub fn copy(&self, alloc: Global) -> Result<Requirement, AllocError>
        ensures same { IfOk result (λ copy. copy ≡ self.now) }
    {
        let (namespace, name, from_name) = copy_three(
            &self.namespace,
            &self.name,
            &self.from_name,
            alloc,
        )?;
        let (range, from_range) = copy_two(&self.range, &self.from_range, alloc)?;
        let (equal, filter) = copy_two(&self.equal, &self.filter, alloc)?;
        Ok(Requirement {
            namespace,
            name,
            range,
            from_name,
            from_range,
            equal,
            filter,
            optional: self.optional,
            multiple: self.multiple,
            reexport: self.reexport,
            effective: self.effective,
        })
    }
}

impl Copied for Requirement {
    fn copied(&self, alloc: Global) -> Result<Requirement, AllocError> {
        self.copy(alloc)
    }
}
