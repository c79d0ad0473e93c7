//! A live listener, and an event that waits for one.

use osgi_base::{BundleId, ListenerId, Text};
use osgi_model::Filter;
use osgi_ops::{Event, Kind};

/// A live listener: whose it is, its name, which no other of its owner has, what it is told of, and its filter, if it has one.
pub struct ListenerRow {
    pub listener: ListenerId,
    pub owner: BundleId,
    pub name: Text,
    pub kind: Kind,
    pub filter: Option<Filter>,
}

/// Not derived, so that each exit at which one is dropped is a single call, which is cheap to prove.
impl Drop for ListenerRow {
    fn drop(self) {
        let ListenerRow {
            listener: _,
            owner: _,
            name: _,
            kind: _,
            filter: _,
        } = self;
    }
}

/// An event that has still to be handed, with its place in the history: what has the lower place happened earlier.
#[derive(Clone, Copy)]
pub struct Waiting {
    pub place: u64,
    pub event: Event,
}
