//! The decisions that are made and those that are due next.

ghost use Rattle.std.specs.Prelude.{◌≡◌, ◌==◌, length, slice_get};
ghost use Rattle.std.specs.List.{list_any};
ghost use Rattle.osgi_resolver_path.specs.computed.Placed.{ArePlaces};

use crate::queue::Queue;
use crate::step::Step;
use osgi_base::{NumberMap, RevisionId};
use osgi_resolver_decisions::DecisionRef;

/// A decision with its value, what it added, and how far the course was before it.
#[derive(Clone, Copy, PartialEq, Eq)]
pub struct Mark {
    pub decision: DecisionRef,
    pub value: u64,
    pub step: Option<Step>,
    pub ids: usize,
    pub queue: usize,
    pub last: usize,
}

/// The members in order, the decisions of the first of them up to the one at place `last`, one member after another, and what
/// was made of these decisions so far. Each member's place is found by its number; who is no member any more may still have one.
pub struct Course {
    pub ids: Vec<RevisionId>,
    pub places: NumberMap<usize>,
    pub queue: Queue,
    pub last: usize,
    pub marks: Vec<Mark>,
}

/// Not derived, so that each exit at which one is dropped is a single call, which is cheap to prove.
impl Drop for Course {
    fn drop(self) {
        let Course {
            ids: _,
            places: _,
            queue: _,
            last: _,
            marks: _,
        } = self;
    }
}

impl Course {
    /// The next decision, if one is left.
    pub fn next(&self) -> Option<DecisionRef>
        ensures next { result ≡ slice_get self.now.queue (length self.now.marks.items) }
    {
        self.queue.get(self.marks.len())
    }

    /// Whether the revision is a member.
    pub fn has(&self, revision: RevisionId) -> bool
        requires placed { ArePlaces self.now.places self.now.ids.items }
        ensures has { result ≡ list_any (λ k. k.0 == revision.0) self.now.ids.items }
    {
        let Some(place) = self.places.get(revision.0) else {
            return false;
        };
        match self.ids.get(*place) {
            Some(member) => member.0 == revision.0,
            None => false,
        }
    }
}
