//! Sets of revisions.

ghost use Rattle.std.specs.Prelude.{◌≡◌, ◌↔◌, Contains, IfOk, IsTrue};
ghost use Rattle.osgi_space_sources.specs.computed.Adds.{Adds};

use crate::found::Found;
use std::alloc::{AllocError, Global};
use std::marker::Model;

/// The numbers of revisions. Contracts see them as a list, in the order in which they were added. While they are few, `has` looks
/// through the list, which takes less time than a tree.
#[derive(Drop)]
pub struct RevisionSet {
    found: Found<u32>,
}

impl Model for RevisionSet {
    ghost use Rattle.std.specs.Prelude.{List, ℕ};

    ghost Value = { List ℕ };

    ghost view = { λ s. s.found };
}

impl RevisionSet {
    /// These revisions.
    pub fn of(alloc: Global, revisions: Vec<u32>) -> Result<RevisionSet, AllocError>
        ensures revisions { IfOk result (λ set. set ≡ revisions.items) }
    {
        Ok(RevisionSet {
            found: Found::of(alloc, revisions)?,
        })
    }

    pub fn has(&self, revision: u32) -> bool
        ensures has { IsTrue result ↔ Contains self.now revision }
    {
        self.found.has(revision)
    }

    /// The set with one more revision, unless it is there.
    pub fn with(self, revision: u32) -> Result<RevisionSet, AllocError>
        ensures added { IfOk result (λ set. Adds (λ x. x ≡ revision) self set) }
    {
        let RevisionSet { mut found } = self;
        found.add(revision)?;
        Ok(RevisionSet { found })
    }
}
