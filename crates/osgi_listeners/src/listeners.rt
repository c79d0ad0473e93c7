//! The live listeners.

ghost use Rattle.std.specs.Prelude.{◌≡◌, ℕ, ◌+◌, ◌*◌, ◌<◌, ◌↔◌, false, not, [], ◌∷◌, ◌++◌, length, slice_get, filter, map, None, Some, All, AllPairs, IfOk, IfSome, OnOk, OnErr, IsOk, IsTrue, MatchOption, Option};
ghost use Rattle.std.specs.List.{list_any};
ghost use Rattle.std.specs.Option.{option_copied, option_map};
ghost use Rattle.std.specs.Result.{result_err};
ghost use Rattle.osgi_ops.specs.Listening.{ComesBefore};
ghost use Rattle.osgi_listeners.specs.Rows.{Accepts, add_refusal, AnswersHand, AreInOrder, ArePosted, AreRoomier, busy_in, change, end_refusal, HasRoom, ids_of, is_kind, is_named, is_open, is_owned, IsHanded, IsLater, listener_of, listeners_in, new_row, no_listeners, number_of, row_at, rows_after, told, turns_after, without_turn};
ghost use Rattle.osgi_listeners.specs.Sights.{HasRoomFor, IsOfEarlier, sights_of, told_all};
ghost use Rattle.osgi_listeners.specs.Stands.{StandsAdded, StandsCleaned, StandsEnded, StandsFor, StandsHanded, StandsRemoved, StandsSeen};

use crate::answer::HandAnswer;
use crate::counts::{counts_of, reserve_counts};
use crate::kind_index::KindIndex;
use crate::row::{ListenerRow, Waiting};
use crate::sight::{ENTRY_PLACES, Sight};
use crate::slot::Slot;
use crate::slots::{
    are_later, busy_of, open_place, owned_ids, place_of, reserve_each, set_firsts, slot_of,
};
use crate::tournament::{NO_NUMBER, Tournament};
use osgi_base::{BundleId, List, ListenerId, Tag, Text};
use osgi_model::Filter;
use osgi_ops::{Busy, Event, Kind, MAX_LISTENERS, Many, Refusal};
use std::alloc::{AllocError, Global};
use std::collections::BTreeMap;
use std::marker::Model;

/// The live listeners by rising id, each with the events that wait for it, and the open turns.
///
/// Where the first events stand that may be handed is found by a tournament of their places.
pub struct Listeners {
    alloc: Global,
    slots: Vec<Slot>,
    turns: BTreeMap<u32, Tag>,
    firsts: Tournament,
    by_kind: KindIndex,
    issued: u32,
}

/// Not derived, so that each exit at which one is dropped is a single call, which is cheap to prove.
impl Drop for Listeners {
    fn drop(self) {
        let Listeners {
            alloc: _,
            slots: _,
            turns: _,
            firsts: _,
            by_kind: _,
            issued: _,
        } = self;
    }
}

impl Model for Listeners {
    ghost use Rattle.osgi_listeners.specs.Rows.{Listening};
    ghost use Rattle.osgi_listeners.specs.computed.Kept.{IsKept};
    ghost use Rattle.std.specs.Coded.{codes};
    ghost use Rattle.osgi_model.specs.contracts.filter.Filter as filter;

    ghost Value = { Listening };

    ghost coded = { Prim.hlevel (codes, filter.the_row.coded) };

    ghost view = { λ l. record { rows = l.slots.items; turns = l.turns.entries; issued = l.issued } };

    ghost invariant = { λ l. IsKept (record { rows = l.slots.items; turns = l.turns.entries; issued = l.issued }) l.firsts l.by_kind };
}

impl Listeners {
    pub fn new(alloc: Global) -> Result<Listeners, AllocError>
        ensures empty { IfOk result (λ listeners. listeners ≡ no_listeners) }
        ensures stands { IfOk result (StandsFor [] []) }
    {
        Ok(Listeners {
            alloc,
            slots: Vec::new(alloc),
            turns: BTreeMap::new(alloc),
            firsts: Tournament::new(alloc)?,
            by_kind: KindIndex::new(alloc),
            issued: 0,
        })
    }

    /// How many listeners are live.
    pub fn count(&self) -> usize
        ensures count { result ≡ length self.now.rows }
        ensures in_order { AreInOrder self.now }
    {
        self.slots.len()
    }

    /// The live listener at this place by rising id, counted from 0.
    pub fn at(&self, place: usize) -> &ListenerRow
        requires within { place < length self.now.rows }
        ensures listener { slice_get (listeners_in self.now.rows) place ≡ Some result.now }
        ensures in_order { AreInOrder self.now }
    {
        self.slots[place].listener()
    }

    /// The listener of this id, if it is live.
    pub fn row(&self, listener: ListenerId) -> Option<&ListenerRow>
        ensures row { option_copied result
            ≡ option_map listener_of (row_at listener self.now.rows) }
        ensures in_order { AreInOrder self.now }
    {
        match slot_of(&self.slots, listener) {
            Some(slot) => Some(slot.listener()),
            None => None,
        }
    }

    /// The ids of the owner's listeners, rising.
    pub fn owned(&self, owner: BundleId) -> Result<List<ListenerId>, AllocError>
        ensures owned { IfOk result (λ ids. ids ≡ ids_of (filter (is_owned owner) self.now.rows)) }
    {
        let ids = owned_ids(self.alloc, &self.slots, owner)?;
        Ok(List::from(ids))
    }

    /// The ids of the listeners of a kind, rising.
    pub fn of_kind(&self, kind: Kind) -> &[ListenerId]
        ensures of_kind { result.now ≡ ids_of (filter (is_kind kind) self.now.rows) }
        ensures in_order { AreInOrder self.now }
    {
        self.by_kind.ids(kind)
    }

    /// Whether the owner has a live listener of this name.
    pub fn has(&self, owner: BundleId, name: &Text) -> bool
        ensures has { result ≡ list_any (is_named owner name.now) self.now.rows }
    {
        self.slots.iter().any(|slot| slot.is_named(owner, name))
    }

    /// The id of the next listener that is added.
    pub fn next_id(&self) -> ListenerId
        requires ids_left { self.now.issued < 4294967295 }
        ensures id { result.0 ≡ self.now.issued + 1 }
    {
        ListenerId(self.issued + 1)
    }

    /// Why no listener of this name is added for the owner, if there is a reason.
    pub fn add_refusal(&self, owner: BundleId, name: &Text) -> Option<Refusal>
        ensures refusal { result ≡ add_refusal owner name.now self.now.rows }
    {
        if self.has(owner, name) {
            return Some(Refusal::InvalidOperation);
        }
        if self.slots.len() >= MAX_LISTENERS {
            return Some(Refusal::TooMany {
                kind: Many::Listeners,
            });
        }
        None
    }

    /// Adds a listener under the next id. Tests alone call it: the program decides by `add_refusal` and `next_id`, and adds by
    /// `insert`.
    pub fn add(
        &mut self,
        owner: BundleId,
        name: Text,
        kind: Kind,
        filter: Option<Filter>,
    ) -> Result<Result<ListenerId, Refusal>, AllocError>
        requires ids_left { self.old.issued < 4294967295 }
        ensures refusal { IfOk result (λ answer.
            result_err answer ≡ add_refusal owner name self.old.rows) }
        ensures id { IfOk result (λ answer. IfOk answer (λ id. id.0 ≡ self.old.issued + 1)) }
        ensures rows { IfOk result (λ answer.
            IfOk answer (λ id.
            self.new.rows
            ≡ self.old.rows ++ new_row
            (record { listener = id; owner = owner; name = name; kind = kind; filter = filter })
            ∷ [])) }
        ensures turns { self.new.turns ≡ self.old.turns }
        ensures issued { IfOk result (λ answer.
            OnOk answer (self.new.issued ≡ self.old.issued + 1)) }
        ensures stands { IfOk result (λ answer.
            IfOk answer (λ id.
            StandsAdded
            (record { listener = id; owner = owner; name = name; kind = kind; filter = filter })
            self.old self.new)) }
        ensures refused { IfOk result (λ answer. OnErr answer (self.new ≡ self.old)) }
        ensures unchanged { OnErr result (self.new ≡ self.old) }
    {
        if let Some(refusal) = self.add_refusal(owner, &name) {
            return Ok(Err(refusal));
        }
        let listener = self.next_id();
        self.insert(ListenerRow {
            listener,
            owner,
            name,
            kind,
            filter,
        })?;
        Ok(Ok(listener))
    }

    /// Adds a listener under the next id, where nothing refuses it (`add_refusal`). The program adds by this call.
    pub fn insert(&mut self, row: ListenerRow) -> Result<(), AllocError>
        requires next { number_of row ≡ self.old.issued + 1 }
        requires free { add_refusal row.owner row.name self.old.rows ≡ None }
        ensures rows { OnOk result (self.new.rows ≡ self.old.rows ++ new_row row ∷ []) }
        ensures turns { self.new.turns ≡ self.old.turns }
        ensures issued { OnOk result (self.new.issued ≡ self.old.issued + 1) }
        ensures stands { OnOk result (StandsAdded row self.old self.new) }
        ensures unchanged { OnErr result (self.new ≡ self.old) }
    {
        let listener = row.listener;
        let kind = row.kind;
        let slot = Slot::new(self.alloc, row)?;
        self.slots.reserve(1)?;
        self.by_kind.add(kind, listener)?;
        self.slots.push_reserved(slot);
        self.issued = listener.0;
        Ok(())
    }

    /// Takes out the owner's listener of this name, and answers whether there was one. Its turn stays open.
    pub fn remove(&mut self, owner: BundleId, name: &Text) -> bool
        ensures found { result ≡ list_any (is_named owner name.now) self.old.rows }
        ensures rows { self.new.rows
            ≡ filter (λ row. not (is_named owner name.now row)) self.old.rows }
        ensures turns { self.new.turns ≡ self.old.turns }
        ensures issued { self.new.issued ≡ self.old.issued }
        ensures stands { StandsRemoved owner name.now result self.old self.new }
    {
        let found = self.has(owner, name);
        let before = self.slots.len();
        self.slots.retain(
            |slot: &Slot| -> bool
                ensures kept { result ≡ not (is_named owner name.entry.now slot.now) }
            { !slot.is_named(owner, name) },
        );
        self.by_kind.keep_live(&self.slots);
        set_firsts(&mut self.firsts, &self.slots, &self.turns, before);
        found
    }

    /// Takes out the owner's listeners. Their turns stay open.
    pub fn remove_all(&mut self, owner: BundleId)
        ensures rows { self.new.rows ≡ filter (λ row. not (is_owned owner row)) self.old.rows }
        ensures turns { self.new.turns ≡ self.old.turns }
        ensures issued { self.new.issued ≡ self.old.issued }
        ensures stands { StandsCleaned owner self.old self.new }
    {
        let count = self.slots.len();
        self.slots.retain(
            |slot: &Slot| -> bool
                ensures kept { result ≡ not (is_owned owner slot.now) }
            { !slot.is_of(owner) },
        );
        self.by_kind.keep_live(&self.slots);
        set_firsts(&mut self.firsts, &self.slots, &self.turns, count);
    }

    /// Whether the place is above those of all events that wait.
    pub fn is_later(&self, place: u64) -> bool
        ensures later { IsTrue result ↔ All (IsLater place) self.now.rows }
    {
        are_later(&self.slots, place)
    }

    /// Makes room at each live listener for so many events more. If memory runs out, some listeners may have more room. Tests
    /// and `post` alone call it: the program makes room by `reserve_for`.
    pub fn reserve(&mut self, events: u64) -> Result<(), AllocError>
        ensures roomier { AreRoomier self.old self.new }
        ensures room { OnOk result (HasRoom events self.new.rows) }
        ensures enough { HasRoom events self.old.rows → IsOk result }
    {
        reserve_each(&mut self.slots, events as usize)
    }

    /// Makes room at each live listener for as many events more as sights name it. If memory runs out, nothing has changed but
    /// room. The cost is that of the sights: it does not go over the other listeners, and without sights it takes no memory. The
    /// program makes room by this call.
    pub fn reserve_for(&mut self, sights: &[Sight]) -> Result<(), AllocError>
        ensures roomier { AreRoomier self.old self.new }
        ensures room { OnOk result (HasRoomFor (sights_of sights.now) self.new.rows) }
    {
        let counts = counts_of(self.alloc, sights)?;
        reserve_counts(&mut self.slots, &counts)
    }

    /// Puts the events that are seen of an entry behind those that wait for their listeners, one after another. `entry` is how
    /// many entries stand before it, and `sights` are in order. What a listener that is not live sees is passed over. It takes
    /// no memory: there has to be room, as `reserve_for` makes it, and what waits has to be of earlier entries. The program
    /// delivers by this call.
    pub fn deliver_all(&mut self, entry: u64, sights: &[Sight])
        requires fits { entry < 4294967295 }
        requires room { HasRoomFor (sights_of sights.now) self.old.rows }
        requires earlier { All (IsOfEarlier entry) self.old.rows }
        requires in_order { AllPairs ComesBefore (sights_of sights.now) }
        ensures rows { self.new.rows ≡ map (told_all entry (sights_of sights.now)) self.old.rows }
        ensures turns { self.new.turns ≡ self.old.turns }
        ensures issued { self.new.issued ≡ self.old.issued }
        ensures stands { StandsSeen entry (sights_of sights.now) self.old self.new }
    {
        for sight in sights {
            let place = entry * ENTRY_PLACES + u64::from(sight.place);
            self.deliver(sight.listener, place, sight.event);
        }
    }

    /// Puts the event behind those that wait for the listener, if it is live. It takes no memory: there has to be room.
    fn deliver(&mut self, listener: ListenerId, place: u64, event: Event)
        requires accepts { IfSome (row_at listener self.old.rows) (Accepts place) }
        requires fits { place < 18446744073709551615 }
        ensures rows { self.new.rows
            ≡ change listener (told (record { place = place; event = event })) self.old.rows }
        ensures turns { self.new.turns ≡ self.old.turns }
        ensures issued { self.new.issued ≡ self.old.issued }
    {
        let Some(at) = place_of(&self.slots, listener) else {
            return;
        };
        let slot = &mut self.slots[at];
        slot.push(Waiting { place, event });
        let first = open_place(slot, &self.turns);
        self.firsts.set(at, first);
    }

    /// Puts an event behind those that wait for each live listener that sees one: what `sees` answers for it. The place is
    /// above those of all events that wait, and below the greatest number of 64 bits, which stands for no place. If memory runs out,
    /// no event is put anywhere. Tests alone call it: the program delivers by `deliver_all`.
    pub fn post<F: Fn(ListenerId) -> Option<Event> + Drop>(
        &mut self,
        place: u64,
        sees: F,
    ) -> Result<(), AllocError>
        requires callable { F.IsAlwaysCallable sees }
        requires later { All (IsLater place) self.old.rows }
        requires fits { place < 18446744073709551615 }
        ensures posted { OnOk result
            (ArePosted place (λ listener answer. F.post sees listener answer) self.old.rows
            self.new.rows) }
        ensures turns { self.new.turns ≡ self.old.turns }
        ensures issued { self.new.issued ≡ self.old.issued }
        ensures room { OnOk result
            ((events : ℕ) → HasRoom (events + 1) self.old.rows → HasRoom events self.new.rows) }
        ensures enough { HasRoom 1 self.old.rows → IsOk result }
        ensures unchanged { OnErr result (AreRoomier self.old self.new) }
    {
        self.reserve(1)?;
        let count = self.count();
        for at in 0..count {
            let listener = self.at(at).listener;
            if let Some(event) = sees(listener) {
                self.deliver(listener, place, event);
            }
        }
        Ok(())
    }

    /// The live listeners that are in a turn and for which events wait, with the tags of their turns, by rising id.
    pub fn busy(&self) -> Result<List<Busy>, AllocError>
        ensures busy { IfOk result (λ busy. busy ≡ busy_in self.now) }
        ensures in_order { AreInOrder self.now }
    {
        let busy = busy_of(self.alloc, &self.slots, &self.turns)?;
        Ok(List::from(busy))
    }

    /// Whether a hand would hand an event.
    pub fn ready(&self) -> bool
        ensures ready { result ≡ list_any (is_open self.now.turns) self.now.rows }
    {
        self.firsts.first().is_some()
    }

    /// What a hand would hand, and to whom.
    pub fn next(&self) -> Option<(ListenerId, Event)>
        ensures next { MatchOption result
            (All (λ row. is_open self.now.turns row ≡ false) self.now.rows)
            (λ next. IsHanded self.now next.0 next.1) }
        ensures in_order { AreInOrder self.now }
    {
        let at = match self.firsts.first() {
            Some(at) => at,
            None => return None,
        };
        let slot = &self.slots[at];
        let Some(first) = slot.first() else {
            unreachable!()
        };
        Some((slot.listener().listener, first.event))
    }

    /// Hands the earliest event that waits for a listener in no turn, of the listeners with that event to the one of the lowest
    /// id, which is in a turn from then on.
    pub fn hand(&mut self, tag: Tag) -> Result<HandAnswer, AllocError>
        ensures answer { IfOk result (AnswersHand self.old) }
        ensures in_order { AreInOrder self.old }
        ensures rows { IfOk result (λ answer. self.new.rows ≡ rows_after answer self.old.rows) }
        ensures turns { IfOk result (λ answer.
            self.new.turns ≡ turns_after tag answer self.old.turns) }
        ensures issued { self.new.issued ≡ self.old.issued }
        ensures stands { IfOk result (λ answer. StandsHanded tag answer self.old self.new) }
        ensures unchanged { OnErr result (self.new ≡ self.old) }
    {
        let Some(at) = self.firsts.first() else {
            let busy = self.busy()?;
            return Ok(HandAnswer::Nothing { busy });
        };
        let listener = self.slots[at].listener().listener;
        self.turns.insert(listener.0, tag)?;
        self.firsts.set(at, NO_NUMBER);
        let slot = &mut self.slots[at];
        let Some(first) = slot.take_first() else {
            unreachable!()
        };
        Ok(HandAnswer::Handed {
            listener,
            event: first.event,
        })
    }

    /// Ends the turn of the listener, which has to be one of this tag. It may have been removed meanwhile.
    pub fn end_hand(&mut self, tag: Tag, listener: ListenerId) -> Result<(), Refusal>
        ensures refusal { result_err result ≡ end_refusal tag listener self.old.turns }
        ensures rows { self.new.rows ≡ self.old.rows }
        ensures turns { OnOk result (self.new.turns ≡ without_turn listener self.old.turns) }
        ensures issued { self.new.issued ≡ self.old.issued }
        ensures stands { OnOk result (StandsEnded tag listener self.old self.new) }
        ensures refused { OnErr result (self.new ≡ self.old) }
    {
        match self.turns.get(&listener.0) {
            Some(opened) if *opened == tag => {}
            _ => return Err(Refusal::InvalidOperation),
        }
        self.turns.remove(&listener.0);
        if let Some(at) = place_of(&self.slots, listener) {
            let first = self.slots[at].first_place();
            self.firsts.set(at, first);
        }
        Ok(())
    }
}
