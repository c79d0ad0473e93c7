//! Whether a wire keeps the rules that are asked of each wire.

ghost use Rattle.std.specs.Prelude.{◌≡◌, ◌≢◌, ◌<◌, ◌↔◌, IfOk, IsTrue, Some};
ghost use Rattle.std.specs.BTreeMap.{get};
ghost use Rattle.osgi_space_rules.specs.computed.Entries.{AreProviders};
ghost use Rattle.osgi_space_rules.specs.computed.Holding.{IsAsked, WireHolds};
ghost use Rattle.osgi_space_rules.specs.computed.Keys.{package_cmp};
ghost use Rattle.osgi_world.specs.Wirings.{HasCapability, HasRequirement, IsBundleWire, OnOffer};

use crate::indexed::WiringIndex;
use crate::keys::PackageAt;
use osgi_base::RevisionId;
use osgi_lookup::KnownIndex;
use osgi_world::{CapRef, ReqRef, Wire};
use std::alloc::{AllocError, Global};
use std::collections::BTreeMap;

/// Whether the wire of this revision is asked for, its provider is in force and has the capability on offer, and it is no
/// bundle wire to the owner of its requirement.
pub fn wire_holds(
    alloc: Global,
    known: &KnownIndex,
    index: &WiringIndex,
    providers: &BTreeMap<PackageAt, RevisionId>,
    id: RevisionId,
    wire: &Wire,
) -> Result<bool, AllocError>
    requires providers { AreProviders known.now index.now providers.now }
    ensures holds { IfOk result (λ ok. IsTrue ok ↔ WireHolds known.now index.now id wire.now) }
{
    let capability = wire.capability;
    if !is_asked(known, index, id, wire.requirement)
        || !index.is_in_force(capability.provider)
        || !is_to_another(known, wire)
    {
        return Ok(false);
    }
    Ok(is_offered(alloc, known, index, providers, capability)?)
}

/// Whether it is an effective requirement of the payload, or a dynamic import of the revision itself.
fn is_asked(known: &KnownIndex, index: &WiringIndex, id: RevisionId, requirement: ReqRef) -> bool
    ensures asked { IsTrue result ↔ IsAsked known.now index.now id requirement }
{
    has_requirement(known, index, id, requirement) && known.is_effective(requirement)
        || requirement.owner == id && known.is_dynamic(requirement)
}

fn has_requirement(
    known: &KnownIndex,
    index: &WiringIndex,
    id: RevisionId,
    requirement: ReqRef,
) -> bool
    ensures has { IsTrue result ↔ HasRequirement known.now index.now id requirement }
{
    let count = known.requirement_count(requirement.owner);
    index.owns(id, requirement.owner) && (requirement.index as usize) < count
}

/// Whether it is no bundle wire to the owner of its requirement.
fn is_to_another(known: &KnownIndex, wire: &Wire) -> bool
    ensures another { IsTrue result ↔ (IsBundleWire known.now wire.now
        → wire.now.capability.provider ≢ wire.now.requirement.owner) }
{
    let capability = wire.capability;
    capability.provider != wire.requirement.owner
        || !known.is_bundle(capability.owner, capability.index)
}

/// Whether the capability is in the payload of its provider, and no export of a package that the provider imports from
/// elsewhere.
fn is_offered(
    alloc: Global,
    known: &KnownIndex,
    index: &WiringIndex,
    providers: &BTreeMap<PackageAt, RevisionId>,
    capability: CapRef,
) -> Result<bool, AllocError>
    requires providers { AreProviders known.now index.now providers.now }
    ensures offered { IfOk result (λ ok. IsTrue ok ↔ OnOffer known.now index.now capability) }
{
    if !has_capability(known, index, capability) {
        return Ok(false);
    }
    let Some(name) = known.exported_package(capability.owner, capability.index) else {
        return Ok(true);
    };
    let package = PackageAt::new(alloc, capability.provider, name)?;
    Ok(!is_from_elsewhere(providers, &package))
}

fn has_capability(known: &KnownIndex, index: &WiringIndex, capability: CapRef) -> bool
    ensures has { IsTrue result
        ↔ HasCapability known.now index.now capability.provider capability.owner capability.index }
{
    let count = known.capability_count(capability.owner);
    index.owns(capability.provider, capability.owner) && (capability.index as usize) < count
}

fn is_from_elsewhere(providers: &BTreeMap<PackageAt, RevisionId>, package: &PackageAt) -> bool
    ensures elsewhere { IsTrue result ↔ ((x : RevisionId)
        × (get package_cmp providers.now «package».now ≡ Some x) × (x ≢ «package».now.revision)) }
{
    match providers.get(package).copied() {
        Some(from) => from != package.revision,
        None => false,
    }
}
