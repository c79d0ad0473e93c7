//! What a capability is preferred by.

ghost use Rattle.std.specs.Prelude.{◌≡◌, IfOk};
ghost use Rattle.std.specs.Option.{option_copied};
ghost use Rattle.osgi_candidates.specs.computed.Ranking.{IsRankOf};
ghost use Rattle.osgi_version.specs.VersionValues.{parts};
ghost use Rattle.osgi_world.specs.Candidates.{preference_version};
ghost use Rattle.osgi_world.specs.Satisfaction.{version_in, version_of};

use crate::offers::Offers;
use crate::ranked::Ranked;
use osgi_capability::value_named;
use osgi_model::{Attributes, Value};
use osgi_version::Version;
use osgi_world::CapRef;
use std::alloc::{AllocError, Global};
use std::cmp::Reverse;

impl Offers<'_> {
    /// The capability with what it is preferred by.
    pub(crate) fn ranked(&self, alloc: Global, capability: CapRef) -> Result<Ranked, AllocError>
        ensures rank { IfOk result (IsRankOf self.now capability) }
    {
        Ok(Ranked {
            in_force: self.is_in_force(capability.provider),
            version: self.preferred_version(alloc, capability)?,
            bundle: Reverse(self.known.bundle_of(capability.provider).0),
            provider: Reverse(capability.provider.0),
            owner: Reverse(capability.owner.0),
            index: Reverse(capability.index),
        })
    }

    /// The version of the bundle that provides it, if it is a bundle, and else its attribute `version`.
    fn preferred_version(&self, alloc: Global, capability: CapRef) -> Result<Version, AllocError>
        ensures version { IfOk result (λ version.
            parts version ≡ preference_version self.now.known capability) }
    {
        if self.known.is_bundle(capability.owner, capability.index) {
            return match self.known.revision(capability.provider) {
                Some(provider) => provider.version.copy(alloc),
                None => Ok(Version::numbered(0, 0, 0)),
            };
        }
        match self.known.capability(capability.owner, capability.index) {
            Some(offered) => version_in(alloc, offered.attributes.get()),
            None => Ok(Version::numbered(0, 0, 0)),
        }
    }
}

/// The attribute `version` where it is a version, and else 0.0.0.
fn version_in(alloc: Global, attributes: &Attributes) -> Result<Version, AllocError>
    ensures version { IfOk result (λ version. parts version ≡ version_in attributes.now) }
{
    version_of(alloc, value_named(attributes.items(), b"version"))
}

fn version_of(alloc: Global, value: Option<&Value>) -> Result<Version, AllocError>
    ensures version { IfOk result (λ version.
        parts version ≡ version_of (option_copied value.entry)) }
{
    match value {
        Some(Value::Version(version)) => version.copy(alloc),
        _ => Ok(Version::numbered(0, 0, 0)),
    }
}
