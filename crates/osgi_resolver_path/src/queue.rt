//! The decisions that are due, in order.

ghost use Rattle.std.specs.Prelude.{◌≡◌, ◌≤◌, ◌++◌, OnErr, OnOk, length, slice_get, take};

use osgi_resolver_decisions::{DecisionRef, Decisions};
use std::alloc::{AllocError, Global};
use std::marker::Model;

/// Decisions in order, appended and removed at the end. The list appended last is shared with its owner, and is copied when another
/// comes after it: so to append one costs as much as the one before it is long, and nothing by its own length. Contracts see the list.
pub struct Queue {
    before: Vec<DecisionRef>,
    last: Decisions,
    /// How many of the last are there.
    used: usize,
}

/// Not derived, so that each exit at which one is dropped is a single call, which is cheap to prove.
impl Drop for Queue {
    fn drop(self) {
        let Queue {
            before: _,
            last: _,
            used: _,
        } = self;
    }
}

impl Model for Queue {
    ghost use Rattle.std.specs.Prelude.{◌^◌, ◌<◌, ◌≤◌, ◌++◌, List, length, take};
    ghost use Rattle.osgi_resolver_decisions.specs.declared.decision_ref.DecisionRef.{DecisionRef};

    ghost Value = { List DecisionRef };

    ghost view = { λ q. q.before.items ++ take q.used q.last };

    ghost invariant = { λ q. (q.used ≤ length q.last) × (q.used < 2 ^ 63) };
}

impl Queue {
    pub fn of(alloc: Global, decisions: Decisions) -> Queue
        ensures decisions { result ≡ decisions }
    {
        let used = decisions.items().len();
        Queue {
            before: Vec::new(alloc),
            last: decisions,
            used,
        }
    }

    pub fn len(&self) -> usize
        ensures length { result ≡ length self.now }
    {
        self.before.len() + self.used
    }

    /// The decision at the place, if one is there.
    pub fn get(&self, place: usize) -> Option<DecisionRef>
        ensures decision { result ≡ slice_get self.now place }
    {
        let first = self.before.len();
        if place < first {
            return self.before.get(place).copied();
        }
        used_of(&self.last, self.used).get(place - first).copied()
    }

    /// Puts decisions to the end. If memory runs out, nothing changes.
    pub fn push(&mut self, decisions: Decisions) -> Result<(), AllocError>
        ensures added { OnOk result (self.new ≡ self.old ++ decisions) }
        ensures unchanged { OnErr result (self.new ≡ self.old) }
    {
        let count = decisions.items().len();
        if count == 0 {
            return Ok(());
        }
        add_used(&mut self.before, &self.last, self.used)?;
        self.last = decisions;
        self.used = count;
        Ok(())
    }

    /// Takes off all but the first so many.
    pub fn truncate(&mut self, count: usize)
        ensures first { self.new ≡ take count self.old }
    {
        let first = self.before.len();
        if count < first {
            self.before.truncate(count);
            self.used = 0;
        } else if count - first < self.used {
            self.used = count - first;
        }
    }
}

/// The first so many of the decisions.
fn used_of(last: &Decisions, used: usize) -> &[DecisionRef]
    requires used { used ≤ length last.now }
    ensures first { result.now ≡ take used last.now }
{
    &last.items()[..used]
}

/// Puts a copy of the first so many of the decisions to the end. If memory runs out, nothing changes.
fn add_used(before: &mut Vec<DecisionRef>, last: &Decisions, used: usize) -> Result<(), AllocError>
    requires used { used ≤ length last.now }
    ensures added { OnOk result (before.new.items ≡ before.old.items ++ take used last.now) }
    ensures unchanged { OnErr result (before.new.items ≡ before.old.items) }
{
    before.extend_from_slice(used_of(last, used))
}
