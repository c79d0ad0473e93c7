//! A live listener with the events that wait for it.

ghost use Rattle.std.specs.Prelude.{◌≡◌, ◌<◌, ◌≤◌, ◌↔◌, IsTrue, OnOk, OnErr, IfOk, IfSome, slice_get};
ghost use Rattle.osgi_listeners.specs.Rows.{has_waiting, is_named, is_owned, IsLater, IsRoomier, new_row, told, without_first};
ghost use Rattle.osgi_listeners.specs.computed.Kept.{first_place};

use crate::row::{ListenerRow, Waiting};
use crate::tournament::NO_NUMBER;
use osgi_base::{BundleId, Text};
use std::alloc::{AllocError, Global};
use std::collections::VecDeque;
use std::marker::Model;

/// A live listener and its queue.
#[derive(Drop)]
pub struct Slot {
    listener: ListenerRow,
    queue: VecDeque<Waiting>,
}

impl Model for Slot {
    ghost use Rattle.std.specs.Prelude.{◌-◌};
    ghost use Rattle.std.specs.VecDeque.{deque_len, deque_capacity};
    ghost use Rattle.std.specs.Coded.{codes};
    ghost use Rattle.osgi_listeners.specs.Rows.{Row};
    ghost use Rattle.osgi_model.specs.contracts.filter.Filter as filter;

    ghost Value = { Row };

    ghost coded = { Prim.hlevel (codes, filter.the_row.coded) };

    ghost view = { λ s. record {
      listener = s.listener;
      waiting = s.queue.items;
      room = deque_capacity s.queue - deque_len s.queue;
    } };
}

impl Slot {
    /// A listener for which nothing waits, and without room.
    pub fn new(alloc: Global, listener: ListenerRow) -> Result<Slot, AllocError>
        ensures new { IfOk result (λ slot. slot ≡ new_row listener) }
    {
        let queue = VecDeque::with_capacity(alloc, 0)?;
        Ok(Slot { listener, queue })
    }

    pub fn listener(&self) -> &ListenerRow
        ensures listener { result.now ≡ self.now.listener }
    {
        &self.listener
    }

    /// Whether it is the owner's.
    pub fn is_of(&self, owner: BundleId) -> bool
        ensures owned { result ≡ is_owned owner self.now }
    {
        self.listener.owner.0 == owner.0
    }

    /// Whether it is the owner's of this name.
    pub fn is_named(&self, owner: BundleId, name: &Text) -> bool
        ensures named { result ≡ is_named owner name.now self.now }
    {
        self.listener.owner.0 == owner.0 && self.listener.name == *name
    }

    /// Whether an event waits.
    pub fn has_waiting(&self) -> bool
        ensures waits { result ≡ has_waiting self.now }
    {
        self.queue.front().is_some()
    }

    /// Whether the place is above those of all events that wait.
    pub fn is_later(&self, place: u64) -> bool
        ensures later { IsTrue result ↔ IsLater place self.now }
    {
        self.queue.iter().all(|waiting| waiting.place < place)
    }

    /// The place of the first event that waits, or `NO_NUMBER`.
    pub fn first_place(&self) -> u64
        ensures place { result ≡ first_place self.now }
    {
        match self.queue.front() {
            Some(waiting) => waiting.place,
            None => NO_NUMBER,
        }
    }

    /// Makes room for so many events more.
    pub fn reserve(&mut self, events: usize) -> Result<(), AllocError>
        ensures roomier { IsRoomier self.old self.new }
        ensures room { OnOk result (events ≤ self.new.room) }
        ensures enough { OnErr result (self.old.room < events) }
    {
        self.queue.reserve(events)
    }

    /// Puts the event behind those that wait.
    pub fn push(&mut self, waiting: Waiting)
        requires room { 0 < self.old.room }
        ensures told { self.new ≡ told waiting self.old }
    {
        self.queue.push_back_reserved(waiting);
    }

    /// The first event that waits.
    pub fn first(&self) -> Option<Waiting>
        ensures first { result ≡ slice_get self.now.waiting 0 }
    {
        self.queue.front().copied()
    }

    /// Takes out the first event that waits.
    pub fn take_first(&mut self) -> Option<Waiting>
        ensures first { result ≡ slice_get self.old.waiting 0 }
        ensures rest { IfSome result (λ _. self.new ≡ without_first self.old) }
    {
        self.queue.pop_front()
    }
}
