//! The listeners of a case.

ghost use Rattle.std.specs.Prelude.{◌+◌, ◌≤◌};

use crate::seeing::seen;
use crate::shown::{
    put_busy, put_hand, put_handed, put_ids, put_refusal, put_row, put_sights, put_truth,
};
use cases_text::{put, put_shown};
use osgi_base::{BundleId, ListenerId, Tag, Text};
use osgi_listeners::{ENTRY_PLACES, Listeners, Sight, are_in_order};
use osgi_model::Filter;
use osgi_ops::{Event, Kind};
use std::alloc::{AllocError, Global};

/// Listeners, and how many more may be added.
#[derive(Drop)]
pub struct Kept {
    listeners: Listeners,
    left: u32,
    ghost ids_left: { listeners.issued + left ≤ 4294967295 },
}

impl Kept {
    pub fn new(alloc: Global) -> Result<Kept, AllocError> {
        Ok(Kept {
            listeners: Listeners::new(alloc)?,
            left: u32::MAX,
        })
    }

    pub fn add(
        &mut self,
        out: &mut String,
        owner: BundleId,
        name: Text,
        kind: Kind,
        filter: Option<Filter>,
    ) -> Result<(), AllocError> {
        let Some(left) = self.left.checked_sub(1) else {
            return put(out, "no ids left");
        };
        self.left = left;
        match self.listeners.add(owner, name, kind, filter)? {
            Ok(id) => put_shown(out, &id.0),
            Err(refusal) => put_refusal(out, &refusal),
        }
    }

    pub fn remove(
        &mut self,
        out: &mut String,
        owner: BundleId,
        name: &Text,
    ) -> Result<(), AllocError> {
        let found = self.listeners.remove(owner, name);
        put_truth(out, found)
    }

    pub fn remove_all(&mut self, out: &mut String, owner: BundleId) -> Result<(), AllocError> {
        self.listeners.remove_all(owner);
        put(out, "ok")
    }

    pub fn reserve(&mut self, out: &mut String, events: u64) -> Result<(), AllocError> {
        self.listeners.reserve(events)?;
        put(out, "ok")
    }

    pub fn see(
        &mut self,
        out: &mut String,
        entry: u64,
        sights: &[Sight],
    ) -> Result<(), AllocError> {
        if entry >= 4_294_967_295 || !are_in_order(sights) {
            return put(out, "no");
        }
        self.listeners.reserve_for(sights)?;
        if !self.listeners.is_later(entry * ENTRY_PLACES) {
            return put(out, "no");
        }
        self.listeners.deliver_all(entry, sights);
        put(out, "ok")
    }

    pub fn post(
        &mut self,
        out: &mut String,
        place: u64,
        code: u8,
        ids: &[u32],
    ) -> Result<(), AllocError> {
        if place == u64::MAX || !self.listeners.is_later(place) {
            return put(out, "no");
        }
        self.listeners.post(place, |listener: ListenerId| {
            if ids.contains(&listener.0) {
                Some(Event::Framework { code })
            } else {
                None
            }
        })?;
        put(out, "ok")
    }

    pub fn seen(
        &self,
        alloc: Global,
        out: &mut String,
        words: &str,
        removed: Option<BundleId>,
    ) -> Result<(), AllocError> {
        let sights = seen(alloc, &self.listeners, words, removed)?;
        put_sights(out, &sights)
    }

    pub fn has(&self, out: &mut String, owner: BundleId, name: &Text) -> Result<(), AllocError> {
        put_truth(out, self.listeners.has(owner, name))
    }

    pub fn add_refusal(
        &self,
        out: &mut String,
        owner: BundleId,
        name: &Text,
    ) -> Result<(), AllocError> {
        match self.listeners.add_refusal(owner, name) {
            Some(refusal) => put_refusal(out, &refusal),
            None => put(out, "none"),
        }
    }

    pub fn next_id(&self, out: &mut String) -> Result<(), AllocError> {
        if self.left == 0 {
            return put(out, "no ids left");
        }
        put_shown(out, &self.listeners.next_id().0)
    }

    pub fn busy(&self, out: &mut String) -> Result<(), AllocError> {
        let busy = self.listeners.busy()?;
        put(out, "busy")?;
        put_busy(out, busy.items())
    }

    pub fn ready(&self, out: &mut String) -> Result<(), AllocError> {
        put_truth(out, self.listeners.ready())
    }

    pub fn next(&self, out: &mut String) -> Result<(), AllocError> {
        match self.listeners.next() {
            Some((listener, event)) => put_handed(out, listener, event),
            None => put(out, "none"),
        }
    }

    pub fn hand(&mut self, out: &mut String, tag: Tag) -> Result<(), AllocError> {
        let answer = self.listeners.hand(tag)?;
        put_hand(out, &answer)
    }

    pub fn end_hand(
        &mut self,
        out: &mut String,
        tag: Tag,
        listener: ListenerId,
    ) -> Result<(), AllocError> {
        match self.listeners.end_hand(tag, listener) {
            Ok(()) => put(out, "ok"),
            Err(refusal) => put_refusal(out, &refusal),
        }
    }

    pub fn count(&self, out: &mut String) -> Result<(), AllocError> {
        put_shown(out, &self.listeners.count())
    }

    pub fn at(&self, out: &mut String, place: usize) -> Result<(), AllocError> {
        if place < self.listeners.count() {
            put_row(out, self.listeners.at(place))
        } else {
            put(out, "none")
        }
    }

    pub fn row(&self, out: &mut String, listener: ListenerId) -> Result<(), AllocError> {
        match self.listeners.row(listener) {
            Some(row) => put_row(out, row),
            None => put(out, "none"),
        }
    }

    pub fn owned(&self, out: &mut String, owner: BundleId) -> Result<(), AllocError> {
        let ids = self.listeners.owned(owner)?;
        put_ids(out, ids.items())
    }

    pub fn of_kind(&self, out: &mut String, kind: Kind) -> Result<(), AllocError> {
        put_ids(out, self.listeners.of_kind(kind))
    }
}
