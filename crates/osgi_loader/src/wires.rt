//! Where the wires of a revision go: to an export of a package, or to a bundle.

ghost use Rattle.std.specs.Prelude.{◌≡◌, IfOk};
ghost use Rattle.osgi_loader.specs.computed.Wires.{is_export_of, is_import, is_required, provider_of, required_by};

use crate::lookups::{capability_at, wires_of};
use osgi_base::RevisionId;
use osgi_lookup::{is_bundle, is_package};
use osgi_wiring::Wirings;
use osgi_world::{Capability, Wire};
use std::alloc::{AllocError, Global};

/// Whether a capability is an export of the package.
pub fn is_export_of(package: &[u8], capability: &Capability) -> bool
    ensures export { result ≡ is_export_of «package».now capability.now }
{
    is_package(capability.namespace.bytes()) && capability.name.bytes() == package
}

/// Whether a wire goes to an export of the package.
fn is_import(wirings: &Wirings, package: &[u8], wire: &Wire) -> bool
    ensures import { result ≡ is_import wirings.now.world.known «package».now wire.now }
{
    capability_at(wirings, wire.capability).map_or(
        false,
        |capability| is_export_of(package, capability),
    )
}

/// The provider of the first wire of a revision for the package, if it has one.
pub fn provider_of(wirings: &Wirings, package: &[u8], revision: RevisionId) -> Option<RevisionId>
    ensures provider { result ≡ provider_of wirings.now.world «package».now revision }
{
    wires_of(wirings, revision)
        .iter()
        .find(|wire| is_import(wirings, package, wire))
        .map(|wire| wire.capability.provider)
}

/// Whether a wire goes to a bundle.
pub fn is_required(wirings: &Wirings, wire: &Wire) -> bool
    ensures required { result ≡ is_required wirings.now.world.known wire.now }
{
    capability_at(wirings, wire.capability).map_or(
        false,
        |capability| is_bundle(capability.namespace.bytes()),
    )
}

/// The numbers of the bundles that a revision requires, in the order of its wires.
pub fn required_by(
    alloc: Global,
    wirings: &Wirings,
    revision: RevisionId,
) -> Result<Vec<u32>, AllocError>
    ensures required { IfOk result (λ numbers.
        numbers.items ≡ required_by wirings.now.world revision) }
{
    wires_of(wirings, revision)
        .iter()
        .filter(|wire| is_required(wirings, wire))
        .map(|wire| wire.capability.provider.0)
        .collect(alloc)
}
