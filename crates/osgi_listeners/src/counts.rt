//! How many sights each listener has, and room for as many.

ghost use Rattle.std.specs.Prelude.{◌≡◌, ◌==◌, ℕ, ◌≤◌, count_by, map, All, IfOk, OnOk};
ghost use Rattle.std.specs.BTreeMap.{get};
ghost use Rattle.std.specs.List.Sorted.{IsStrictlyIncreasing};
ghost use Rattle.std.specs.Map.{count_at};
ghost use Rattle.std.specs.Ordering.{nat_cmp};
ghost use Rattle.osgi_listeners.specs.Rows.{AreRoomierRows, id_of, listeners_in, number_of};

use crate::sight::Sight;
use crate::slot::Slot;
use crate::slots::place_of;
use osgi_base::ListenerId;
use std::alloc::{AllocError, Global};
use std::collections::BTreeMap;

/// How many of the sights are of each listener, by the number of its id.
pub fn counts_of(alloc: Global, sights: &[Sight]) -> Result<BTreeMap<u32, usize>, AllocError>
    ensures counts { IfOk result (λ counts.
        (id : ℕ)
        → count_at (get nat_cmp counts) id
        ≡ count_by (λ sight. sight.listener.0 == id) sights.now) }
{
    let mut counts = BTreeMap::new(alloc);
    for sight in sights {
        *counts.entry(sight.listener.0)?.or_insert(0) += 1;
    }
    Ok(counts)
}

/// Makes room for as many events more as are counted, at the slot of each listener that is live. It goes over no other slots.
pub fn reserve_counts(slots: &mut [Slot], counts: &BTreeMap<u32, usize>) -> Result<(), AllocError>
    requires rising { IsStrictlyIncreasing (map number_of (listeners_in slots.old)) }
    ensures roomier { AreRoomierRows slots.old slots.new }
    ensures room { OnOk result
        (All (λ row. count_at (get nat_cmp counts.now) (id_of row) ≤ row.room) slots.new) }
{
    for (id, count) in counts {
        reserve_at(slots, ListenerId(*id), *count)?;
    }
    Ok(())
}

/// Makes room at the slot of the listener, if it is live, for so many events more.
fn reserve_at(slots: &mut [Slot], listener: ListenerId, events: usize) -> Result<(), AllocError>
    requires rising { IsStrictlyIncreasing (map number_of (listeners_in slots.old)) }
    ensures roomier { AreRoomierRows slots.old slots.new }
    ensures room { OnOk result (All (λ row. id_of row ≡ listener.0 → events ≤ row.room) slots.new) }
{
    match place_of(slots, listener) {
        Some(at) => slots[at].reserve(events),
        None => Ok(()),
    }
}
