//! The wires of a bundle, as a list shows them.

ghost use Rattle.std.specs.Prelude.{◌≡◌, Some, IsSome, All, IfOk, map};
ghost use Rattle.std.specs.Option.{option_copied};
ghost use Rattle.osgi_ops.specs.WireRows.{AreWireRows, fragment_row, wire_row};
ghost use Rattle.osgi_ops.specs.declared.op.Op.TheVariants as op;
ghost use Rattle.osgi_wiring.specs.States.{IsKeptWorld};
ghost use Rattle.osgi_world.specs.Lookups.{capability_at};
ghost use Rattle.osgi_tables.specs.Replied.{IsAnsweredToAll};
ghost use Rattle.osgi_reply_resolving.specs.computed.Searched.{IsCurrent};

use osgi_base::{BundleId, List, RevisionId, Text};
use osgi_ops::{Refusal, Reply, WireRow};
use osgi_tables::Tables;
use osgi_wiring::Wirings;
use osgi_world::{CapRef, Capability, Wire};
use std::alloc::{AllocError, Global};

/// The capability at a place of its owner.
fn capability(wirings: &Wirings, place: CapRef) -> Option<&Capability>
    ensures capability { option_copied result
        ≡ capability_at wirings.now.world.known place.owner place.index }
{
    let known = wirings.known(place.owner)?;
    known
        .revision
        .get()
        .capabilities
        .items()
        .get(place.index as usize)
}

/// What a list of wires shows of one.
fn wire_row(alloc: Global, wirings: &Wirings, wire: &Wire) -> Result<WireRow, AllocError>
    requires known { IsSome (wire_row wirings.now.world.known wire.now) }
    ensures row { IfOk result (λ row. Some row ≡ wire_row wirings.now.world.known wire.now) }
{
    let Some(provider) = wirings.known(wire.capability.provider) else {
        unreachable!()
    };
    let Some(capability) = capability(wirings, wire.capability) else {
        unreachable!()
    };
    Ok(WireRow {
        namespace: capability.namespace.copy(alloc)?,
        name: capability.name.copy(alloc)?,
        bundle: provider.bundle,
        version: provider.revision.get().version.copy(alloc)?,
        revision: provider.id,
    })
}

fn wire_rows(alloc: Global, wirings: &Wirings, wires: &[Wire]) -> Result<List<WireRow>, AllocError>
    requires known { All (λ w. IsSome (wire_row wirings.now.world.known w)) wires.now }
    ensures rows { IfOk result (λ rows.
        map Some rows ≡ map (wire_row wirings.now.world.known) wires.now) }
{
    let mut rows = List::with_capacity(alloc, wires.len())?;
    for wire in wires {
        rows.push(wire_row(alloc, wirings, wire)?)?;
    }
    Ok(rows)
}

/// What a list of wires shows of a fragment.
fn fragment_row(
    alloc: Global,
    wirings: &Wirings,
    fragment: RevisionId,
) -> Result<WireRow, AllocError>
    requires known { IsSome (fragment_row wirings.now.world.known fragment) }
    ensures row { IfOk result (λ row. Some row ≡ fragment_row wirings.now.world.known fragment) }
{
    let Some(known) = wirings.known(fragment) else {
        unreachable!()
    };
    Ok(WireRow {
        namespace: Text::empty(),
        name: Text::empty(),
        bundle: known.bundle,
        version: known.revision.get().version.copy(alloc)?,
        revision: known.id,
    })
}

fn fragment_rows(
    alloc: Global,
    wirings: &Wirings,
    fragments: &[RevisionId],
) -> Result<List<WireRow>, AllocError>
    requires known { All (λ f. IsSome (fragment_row wirings.now.world.known f)) fragments.now }
    ensures rows { IfOk result (λ rows.
        map Some rows ≡ map (fragment_row wirings.now.world.known) fragments.now) }
{
    let mut rows = List::with_capacity(alloc, fragments.len())?;
    for fragment in fragments {
        rows.push(fragment_row(alloc, wirings, *fragment)?)?;
    }
    Ok(rows)
}

/// The rows of the wires and of the fragments of a bundle's current revision; none where it is not in force.
fn rows(
    alloc: Global,
    wirings: &Wirings,
    revision: RevisionId,
    bundle: BundleId,
) -> Result<(List<WireRow>, List<WireRow>), AllocError>
    requires current { IsCurrent wirings.now.world bundle revision }
    requires holds { IsKeptWorld wirings.now.world wirings.now.issued }
    ensures rows { IfOk result (λ r. AreWireRows wirings.now.world bundle r.0 r.1) }
{
    let Some(wiring) = wirings.wiring(revision) else {
        return Ok((List::new(alloc)?, List::new(alloc)?));
    };
    let wires = wire_rows(alloc, wirings, wiring.wires.items())?;
    let fragments = fragment_rows(alloc, wirings, wiring.fragments.items())?;
    Ok((wires, fragments))
}

/// The wires of a bundle, and its fragments.
pub fn list_wires(alloc: Global, tables: &Tables, bundle: BundleId) -> Result<Reply, AllocError>
    ensures replied { IfOk result (IsAnsweredToAll (op.ListWires bundle) tables.now) }
{
    let wirings = tables.wirings.wirings();
    let Some(known) = wirings.current(bundle) else {
        let refusal = Refusal::NoSuchBundle;
        return Ok(Reply::Refused { refusal });
    };
    let (rows, fragments) = rows(alloc, wirings, known.id, bundle)?;
    Ok(Reply::Wires { rows, fragments })
}
