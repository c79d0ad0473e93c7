//! Capabilities, found by their places.

ghost use Rattle.std.specs.Prelude.{◌≡◌, ◌↔◌, ℕ, List, Some};
ghost use Rattle.std.specs.Option.{option_copied};
ghost use Rattle.osgi_world.specs.Lookups.{capability_at, capability_namespace};
ghost use Rattle.osgi_world.specs.Satisfaction.{is_bundle, is_package};
ghost use Rattle.osgi_world.specs.Wirings.{IsExport};

use crate::index::KnownIndex;
use crate::namespaces::{is_bundle, is_package};
use osgi_base::{RevisionId, Text};
use osgi_world::Capability;

impl<'w> KnownIndex<'w> {
    /// The capability at a place of its owner.
    pub fn capability(&self, owner: RevisionId, index: u32) -> Option<&'w Capability>
        ensures capability { option_copied result ≡ capability_at self.now owner index }
    {
        let revision = self.revision(owner)?;
        revision.capabilities.items().get(index as usize)
    }

    /// The bytes of its namespace; none where there is no such capability.
    pub fn capability_namespace(&self, owner: RevisionId, index: u32) -> &'w [u8]
        ensures namespace { result.now ≡ capability_namespace self.now owner index }
    {
        match self.capability(owner, index) {
            Some(capability) => capability.namespace.bytes(),
            None => &[],
        }
    }

    /// Whether it is a bundle itself.
    pub fn is_bundle(&self, owner: RevisionId, index: u32) -> bool
        ensures bundle { result ≡ is_bundle (capability_namespace self.now owner index) }
    {
        is_bundle(self.capability_namespace(owner, index))
    }

    /// The package that it is an export of, if it is one.
    pub fn exported_package(&self, owner: RevisionId, index: u32) -> Option<&'w Text>
        ensures package { (p : List ℕ) → (option_copied result ≡ Some p) ↔ IsExport self.now owner index p }
    {
        let capability = self.capability(owner, index)?;
        if !is_package(capability.namespace.bytes()) {
            return None;
        }
        Some(&capability.name)
    }
}
