//! Whether wires go to what is not on offer any more.

ghost use Rattle.std.specs.Prelude.{◌≡◌, ◌↔◌, ℕ, List, IfOk, IsTrue, Some};
ghost use Rattle.osgi_space_sources.specs.computed.RowSources.{Owns};
ghost use Rattle.osgi_resolver_hopeless.specs.computed.Clashing.{AreWires, HasLost, HasLostAt, IsLost, IsLostAt, IsLostBy, MayReach};
ghost use Rattle.osgi_resolver_hopeless.specs.computed.Open.{AreUnsettled};
ghost use Rattle.osgi_resolver_hopeless.specs.computed.Stuck.{AtMember};
ghost use Rattle.osgi_resolver_path.specs.Standing.{At, made};
ghost use Rattle.osgi_resolver_path.specs.Wires.{wired_in};
ghost use Rattle.osgi_resolver_path.specs.declared.wired.Wired.{Wired};
ghost use Rattle.osgi_resolver_theory.specs.States.{State};
ghost use Rattle.osgi_space_rows.specs.Rows.{Attaches};
ghost use Rattle.osgi_space_rows.specs.Worlds.{AreRowsIn};
ghost use Rattle.osgi_world.specs.Lists.{In};
ghost use Rattle.osgi_world.specs.Partial.{partial};
ghost use Rattle.osgi_world.specs.Wirings.{HasWire, ImportsElsewhere, IsExport, OnOffer};
ghost use Rattle.osgi_world.specs.declared.wiring.Wiring.{Wiring};

use crate::losing::may_lose;
use crate::packages::exported_number;
use crate::settled::is_settled;
use osgi_base::RevisionId;
use osgi_resolver_path::{Mark, Path, Wired};
use osgi_space_rows::{Rows, WorldRows};
use osgi_space_sources::{RevisionSet, imports_elsewhere};
use osgi_world::CapRef;
use std::alloc::{AllocError, Global};

/// Whether the fragment is attached to the host.
pub fn is_attached(rows: &Rows, host: u32, fragment: u32) -> bool
    ensures attached { IsTrue result ↔ Attaches rows.now host fragment }
{
    for row in rows.attached.of(host) {
        if row.fragment == fragment {
            return true;
        }
    }
    false
}

/// Whether what the owner has is in the payload of the revision.
fn owns(rows: &Rows, revision: u32, owner: u32) -> bool
    ensures owns { IsTrue result ↔ Owns rows.now revision owner }
{
    if owner == revision {
        return true;
    }
    is_attached(rows, revision, owner)
}

/// Whether the capability is an export of a package that its provider imports from elsewhere.
fn is_replaced(rows: &WorldRows, capability: CapRef) -> bool
    ensures replaced { (W : List Wiring) → AreRowsIn rows.now W
        → IsTrue result
        ↔ ((p : List ℕ) × IsExport rows.now.known capability.owner capability.index p
        × ImportsElsewhere rows.now.known W capability.provider p) }
{
    if rows
        .rows()
        .imports
        .of_revision(capability.provider.0)
        .is_empty()
    {
        return false;
    }
    match exported_number(rows, capability) {
        Some(number) => imports_elsewhere(rows.rows(), capability.provider.0, number),
        None => false,
    }
}

/// Whether the provider has the capability on offer.
fn is_on_offer(rows: &WorldRows, capability: CapRef) -> bool
    ensures offer { (W : List Wiring) → AreRowsIn rows.now W → IsTrue result
        ↔ OnOffer rows.now.known W capability }
{
    if capability.index as usize >= rows.known().capability_count(capability.owner) {
        return false;
    }
    if !owns(rows.rows(), capability.provider.0, capability.owner.0) {
        return false;
    }
    !is_replaced(rows, capability)
}

/// Whether the wire goes to a provider that is not in the set, and does not have the capability on offer.
fn is_lost(rows: &WorldRows, unsettled: &RevisionSet, wired: Wired) -> bool
    ensures lost { (W : List Wiring) → AreRowsIn rows.now W → IsTrue result
        ↔ IsLost rows.now.known W unsettled.now wired }
{
    let capability = wired.wire.capability;
    if unsettled.has(capability.provider.0) {
        return false;
    }
    !is_on_offer(rows, capability)
}

/// Whether it is so with the wire of a decision, if it made one.
fn is_wire_lost(rows: &WorldRows, unsettled: &RevisionSet, wired: Option<Wired>) -> bool
    ensures lost { (W : List Wiring) → AreRowsIn rows.now W → IsTrue result
        ↔ ((w : Wired) × (wired ≡ Some w) × IsLost rows.now.known W unsettled.now w) }
{
    match wired {
        Some(wired) => is_lost(rows, unsettled, wired),
        None => false,
    }
}

/// Whether it is so with the wire of one of the decisions.
fn is_one_lost(rows: &WorldRows, unsettled: &RevisionSet, marks: &[Mark]) -> bool
    ensures lost { (W : List Wiring) → AreRowsIn rows.now W → IsTrue result
        ↔ ((w : Wired) × In w (wired_in marks.now) × IsLost rows.now.known W unsettled.now w) }
{
    for mark in marks {
        if is_wire_lost(rows, unsettled, mark.wired()) {
            return true;
        }
    }
    false
}

/// Whether the provider of a member's wire is settled, and does not have the capability on offer.
pub fn has_lost(path: &Path, unsettled: &RevisionSet) -> bool
    requires unsettled { At path.now (λ P D. AreUnsettled P D unsettled.now) }
    ensures lost { At path.now (λ P D. IsTrue result ↔ HasLost P D) }
{
    is_one_lost(path.rows(), unsettled, path.marks())
}

// ---- after one decision more

/// Whether the wire's provider is settled, and does not have the capability on offer.
fn is_lost_now(alloc: Global, path: &Path, wired: Wired) -> Result<bool, AllocError>
    ensures lost { IfOk result (λ answer. At path.now (λ P D.
        HasWire (partial P D) wired.revision wired.wire → IsTrue answer
        ↔ IsLostBy P D wired.wire)) }
{
    if is_on_offer(path.rows(), wired.wire.capability) {
        return Ok(false);
    }
    Ok(is_settled(alloc, path, wired.wire.capability.provider)?)
}

/// Whether it is so with the wire that a decision made, if it made one.
pub fn is_new_lost(alloc: Global, path: &Path, wired: Option<Wired>) -> Result<bool, AllocError>
    ensures lost { IfOk result (λ answer. At path.now (λ P D. ((w : Wired) → wired ≡ Some w
        → HasWire (partial P D) w.revision w.wire)
        → IsTrue answer ↔ ((w : Wired) × (wired ≡ Some w) × IsLostBy P D w.wire))) }
{
    match wired {
        Some(wired) => Ok(is_lost_now(alloc, path, wired)?),
        None => Ok(false),
    }
}

/// Whether the wire's provider is the host, or has bundle wires, along which it may reach the host.
fn may_reach(rows: &Rows, wired: Wired, host: RevisionId) -> bool
    ensures may { IsTrue result ↔ MayReach rows.now wired host }
{
    let provider = wired.wire.capability.provider;
    if provider.0 == host.0 {
        return true;
    }
    !rows.required.of(provider.0).is_empty()
}

/// Whether the wire's provider is settled, and does not have the capability on offer. True only where it is so, and true wherever
/// the provider is the host or reaches it, too.
fn is_lost_at(
    alloc: Global,
    path: &Path,
    wired: Wired,
    host: RevisionId,
) -> Result<bool, AllocError>
    ensures lost { IfOk result (λ answer. At path.now (λ P D.
        HasWire (partial P D) wired.revision wired.wire → IsTrue answer
        → IsLostBy P D wired.wire)) }
    ensures all { IfOk result (λ answer. At path.now (λ P D.
        HasWire (partial P D) wired.revision wired.wire → IsLostAt P D host wired.wire
        → IsTrue answer)) }
{
    if !may_reach(path.rows().rows(), wired, host) {
        return Ok(false);
    }
    Ok(is_lost_now(alloc, path, wired)?)
}

/// The same of the wire of a decision, if it made one.
fn is_wire_lost_at(
    alloc: Global,
    path: &Path,
    wired: Option<Wired>,
    host: RevisionId,
) -> Result<bool, AllocError>
    ensures lost { IfOk result (λ answer. At path.now (λ P D. (w : Wired) → wired ≡ Some w
        → HasWire (partial P D) w.revision w.wire → IsTrue answer → IsLostBy P D w.wire)) }
    ensures made { IfOk result (λ answer. IsTrue answer → (w : Wired) × (wired ≡ Some w)) }
    ensures all { IfOk result (λ answer. At path.now (λ P D. (w : Wired) → wired ≡ Some w
        → HasWire (partial P D) w.revision w.wire → IsLostAt P D host w.wire → IsTrue answer)) }
{
    match wired {
        Some(wired) => Ok(is_lost_at(alloc, path, wired, host)?),
        None => Ok(false),
    }
}

/// Whether the provider of the wire of one of these decisions is settled, and does not have the capability on offer. True only
/// where it is so, and true wherever such a provider is the host or reaches it.
fn is_one_lost_at(
    alloc: Global,
    path: &Path,
    marks: &[Mark],
    host: RevisionId,
) -> Result<bool, AllocError>
    ensures lost { IfOk result (λ answer. At path.now (λ P D. AreWires P D (wired_in marks.now)
        → IsTrue answer → HasLost P D)) }
    ensures all { IfOk result (λ answer. At path.now (λ P D. AreWires P D (wired_in marks.now)
        → HasLostAt P D host → IsTrue answer)) }
{
    for mark in marks {
        if is_wire_lost_at(alloc, path, mark.wired(), host)? {
            return Ok(true);
        }
    }
    Ok(false)
}

/// The same of all wires that are decided. They are looked through only where the host, which is a member, or what reaches it may
/// lack what a wire takes.
pub fn has_lost_at(alloc: Global, path: &Path, host: RevisionId) -> Result<bool, AllocError>
    ensures lost { IfOk result (λ answer. At path.now (λ P D. IsTrue answer → HasLost P D)) }
    ensures all { IfOk result (λ answer. AtMember path.now host (λ P D. State P D
        → HasLostAt P D host → IsTrue answer)) }
{
    if !may_lose(alloc, path, host)? {
        return Ok(false);
    }
    Ok(is_one_lost_at(alloc, path, path.marks(), host)?)
}
