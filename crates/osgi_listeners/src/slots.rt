//! What is read of the slots, which stand by rising id, and loops over them.

ghost use Rattle.std.specs.Prelude.{◌≡◌, ℕ, ◌<◌, ◌≤◌, ◌↔◌, false, length, filter, map, All, IfOk, OnOk, IsOk, IsTrue, MatchOption, slice_index_or};
ghost use Rattle.std.specs.List.Sorted.{IsStrictlyIncreasing};
ghost use Rattle.std.specs.Option.{option_copied, option_map_or};
ghost use Rattle.osgi_listeners.specs.Rows.{AreRoomierRows, busy_of, HasRoom, has_waiting, ids_of, is_busy, is_live, is_owned, IsLater, listeners_in, number_of, Row, row_at};
ghost use Rattle.osgi_listeners.specs.computed.Kept.{AreFirsts, IsAbsent, IsPlaceOf, open_place};
ghost use Rattle.osgi_listeners.specs.computed.Tournaments.{none, number_at};

use crate::slot::Slot;
use crate::tournament::{NO_NUMBER, Tournament};
use osgi_base::{BundleId, ListenerId, Tag};
use osgi_ops::Busy;
use std::alloc::{AllocError, Global};
use std::collections::BTreeMap;

/// The place of a live listener by rising id.
pub fn place_of(slots: &[Slot], listener: ListenerId) -> Option<usize>
    requires rising { IsStrictlyIncreasing (map number_of (listeners_in slots.now)) }
    ensures place { MatchOption result (IsAbsent listener slots.now)
        (IsPlaceOf listener slots.now) }
{
    slots
        .binary_search_by_key(&listener.0, |slot| slot.listener().listener.0)
        .ok()
}

/// The slot of a live listener.
pub fn slot_of(slots: &[Slot], listener: ListenerId) -> Option<&Slot>
    requires rising { IsStrictlyIncreasing (map number_of (listeners_in slots.now)) }
    ensures slot { option_copied result ≡ row_at listener slots.now }
{
    match place_of(slots, listener) {
        Some(at) => Some(&slots[at]),
        None => None,
    }
}

/// Whether the listener is live.
pub fn is_live(slots: &[Slot], listener: ListenerId) -> bool
    requires rising { IsStrictlyIncreasing (map number_of (listeners_in slots.now)) }
    ensures live { result ≡ is_live slots.now listener }
{
    slot_of(slots, listener).is_some()
}

/// Whether the listener is live with events that wait.
fn waits(slots: &[Slot], listener: ListenerId) -> bool
    requires rising { IsStrictlyIncreasing (map number_of (listeners_in slots.now)) }
    ensures waits { result ≡ option_map_or has_waiting (row_at listener slots.now) false }
{
    match slot_of(slots, listener) {
        Some(slot) => slot.has_waiting(),
        None => false,
    }
}

/// The open turns of live listeners with events that wait.
pub fn busy_of(
    alloc: Global,
    slots: &[Slot],
    turns: &BTreeMap<u32, Tag>,
) -> Result<Vec<Busy>, AllocError>
    requires rising { IsStrictlyIncreasing (map number_of (listeners_in slots.now)) }
    ensures busy { IfOk result (λ busy.
        busy.items ≡ map busy_of (filter (is_busy slots.now) turns.now.entries)) }
{
    turns
        .iter()
        .filter(|turn| waits(slots, ListenerId(*turn.0)))
        .map(|turn| Busy {
            listener: ListenerId(*turn.0),
            tag: *turn.1,
        })
        .collect(alloc)
}

/// The ids of the owner's listeners.
pub fn owned_ids(
    alloc: Global,
    slots: &[Slot],
    owner: BundleId,
) -> Result<Vec<ListenerId>, AllocError>
    ensures owned { IfOk result (λ ids. ids.items ≡ ids_of (filter (is_owned owner) slots.now)) }
{
    slots
        .iter()
        .filter(|slot| slot.is_of(owner))
        .map(|slot| slot.listener().listener)
        .collect(alloc)
}

/// The place of the first event that can be handed to the listener, or `NO_NUMBER`.
pub fn open_place(slot: &Slot, turns: &BTreeMap<u32, Tag>) -> u64
    ensures place { result ≡ open_place turns.now.entries slot.now }
{
    if turns.contains_key(&slot.listener().listener.0) {
        return NO_NUMBER;
    }
    slot.first_place()
}

/// Puts at the place of each slot where its first event is that can be handed. `before` is how many slots there were.
pub fn set_firsts(
    firsts: &mut Tournament,
    slots: &[Slot],
    turns: &BTreeMap<u32, Tag>,
    before: usize,
)
    requires few { before ≤ 4096 }
    requires fewer { length slots.now ≤ before }
    requires size { length firsts.old ≡ 4096 }
    requires past { (i : ℕ) → before ≤ i → number_at firsts.old i ≡ none }
    ensures size { length firsts.new ≡ 4096 }
    ensures firsts { AreFirsts firsts.new turns.now.entries slots.now }
{
    for at in 0..before {
        let first = open_place_at(slots, turns, at);
        firsts.set(at, first);
    }
}

/// What `open_place` gives of the slot at this place, or `NO_NUMBER` where there is none.
fn open_place_at(slots: &[Slot], turns: &BTreeMap<u32, Tag>, at: usize) -> u64
    ensures within { (d : Row)
        → at < length slots.now
        → result ≡ open_place turns.now.entries (slice_index_or slots.now at d) }
    ensures past { length slots.now ≤ at → result ≡ none }
{
    if at < slots.len() {
        open_place(&slots[at], turns)
    } else {
        NO_NUMBER
    }
}

/// Whether the place is above those of all events that wait at the slots.
pub fn are_later(slots: &[Slot], place: u64) -> bool
    ensures later { IsTrue result ↔ All (IsLater place) slots.now }
{
    for slot in slots {
        if !slot.is_later(place) {
            return false;
        }
    }
    true
}

/// Makes room at each slot for so many events more.
pub fn reserve_each(slots: &mut [Slot], events: usize) -> Result<(), AllocError>
    ensures roomier { AreRoomierRows slots.old slots.new }
    ensures room { OnOk result (HasRoom events slots.new) }
    ensures enough { HasRoom events slots.old → IsOk result }
{
    for slot in slots.iter_mut() {
        slot.reserve(events)?;
    }
    Ok(())
}
