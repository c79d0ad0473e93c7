//! Whether wirings keep the rules of consistency, that on `uses` apart.

ghost use Rattle.std.specs.Prelude.{◌↔◌, IfOk, IsTrue};
ghost use Rattle.osgi_space_rules.specs.Rules.{UsesHold};
ghost use Rattle.osgi_space_rules.specs.computed.Entries.{AreProviders};
ghost use Rattle.osgi_space_rules.specs.computed.Growing.{Each};
ghost use Rattle.osgi_space_rules.specs.computed.Holding.{WireHolds, WiringHolds};
ghost use Rattle.osgi_world.specs.Consistency.{IsCoherent, KeepsRules};

use crate::doubles::{are_names_single, are_wires_single};
use crate::imports::package_providers;
use crate::indexed::WiringIndex;
use crate::keys::PackageAt;
use crate::payload::{do_fragments_match, is_payload_met};
use crate::singletons::singletons_differ;
use crate::wires::wire_holds;
use osgi_base::RevisionId;
use osgi_lookup::KnownIndex;
use osgi_world::Wiring;
use std::alloc::{AllocError, Global};
use std::collections::BTreeMap;

/// Whether the wirings keep each rule of consistency but that on `uses`.
///
/// Nothing is asked of the wirings: several may be of one revision, and revisions may be unknown. Each wire, each requirement
/// of a payload and each fragment is looked at once, and what it takes is found by look-ups.
pub fn keeps_wiring_rules(
    alloc: Global,
    known: &KnownIndex,
    wirings: &[Wiring],
) -> Result<bool, AllocError>
    ensures rules { IfOk result (λ ok. IsTrue ok ↔ KeepsRules known.now wirings.now) }
    ensures holds { IfOk result (λ ok. IsTrue ok → UsesHold known.now wirings.now
        → IsCoherent known.now wirings.now) }
    ensures needed { IfOk result (λ ok. IsCoherent known.now wirings.now → IsTrue ok) }
{
    let Some(providers) = package_providers(alloc, known, wirings)? else {
        return Ok(false);
    };
    if !singletons_differ(alloc, known, wirings)? {
        return Ok(false);
    }
    let index = WiringIndex::new(alloc, wirings)?;
    Ok(each_holds(alloc, known, &index, &providers)?)
}

fn each_holds(
    alloc: Global,
    known: &KnownIndex,
    index: &WiringIndex,
    providers: &BTreeMap<PackageAt, RevisionId>,
) -> Result<bool, AllocError>
    requires providers { AreProviders known.now index.now providers.now }
    ensures each { IfOk result (λ ok. IsTrue ok
        ↔ Each (WiringHolds known.now index.now) index.now) }
{
    for wiring in index.all() {
        if !wiring_holds(alloc, known, index, providers, wiring)? {
            return Ok(false);
        }
    }
    Ok(true)
}

fn wiring_holds(
    alloc: Global,
    known: &KnownIndex,
    index: &WiringIndex,
    providers: &BTreeMap<PackageAt, RevisionId>,
    wiring: &Wiring,
) -> Result<bool, AllocError>
    requires providers { AreProviders known.now index.now providers.now }
    ensures holds { IfOk result (λ ok. IsTrue ok ↔ WiringHolds known.now index.now wiring.now) }
{
    if !is_payload_met(known, index, wiring) || !do_fragments_match(known, wiring) {
        return Ok(false);
    }
    if !are_wires_single(alloc, known, wiring.wires.items())? {
        return Ok(false);
    }
    if !are_names_single(alloc, known, wiring.fragments.items())? {
        return Ok(false);
    }
    Ok(do_wires_hold(alloc, known, index, providers, wiring)?)
}

fn do_wires_hold(
    alloc: Global,
    known: &KnownIndex,
    index: &WiringIndex,
    providers: &BTreeMap<PackageAt, RevisionId>,
    wiring: &Wiring,
) -> Result<bool, AllocError>
    requires providers { AreProviders known.now index.now providers.now }
    ensures each { IfOk result (λ ok. IsTrue ok
        ↔ Each (WireHolds known.now index.now wiring.now.revision) wiring.now.wires) }
{
    for wire in wiring.wires.items() {
        if !wire_holds(alloc, known, index, providers, wiring.revision, wire)? {
            return Ok(false);
        }
    }
    Ok(true)
}
