//! Wires and fragments that are added to a world and taken back.

ghost use Rattle.std.specs.Prelude.{◌≤◌, length};

use crate::shown::push_clash;
use cases_worlds::{cut, revision_id, revision_ids, wire};
use osgi_uses::Spaces;
use osgi_world::World;
use std::alloc::{AllocError, Global};

/// The wirings that steps change, and how many steps can be taken back.
#[derive(Drop)]
pub struct Steps<'w> {
    spaces: Spaces<'w>,
    count: usize,
    ghost counted: { count ≤ length spaces.steps },
}

impl<'w> Steps<'w> {
    pub fn new(alloc: Global, world: &'w World) -> Result<Steps<'w>, AllocError> {
        let spaces = Spaces::new(alloc, world)?;
        Ok(Steps { spaces, count: 0 })
    }

    fn attach(&mut self, text: &str) -> Result<(), AllocError> {
        let (host, fragment) = cut(text);
        self.spaces
            .attach(revision_id(host), revision_id(fragment))?;
        self.count = self.count.saturating_add(1);
        Ok(())
    }

    fn wire(&mut self, text: &str) -> Result<(), AllocError> {
        let (revision, added) = cut(text);
        self.spaces.wire(revision_id(revision), wire(added))?;
        self.count = self.count.saturating_add(1);
        Ok(())
    }

    /// Takes the last step back, if there is one.
    fn undo(&mut self) {
        if self.count > 0 {
            self.count -= 1;
            self.spaces.undo();
        }
    }

    /// Makes the step of the word.
    pub fn make(&mut self, word: &str, rest: &str) -> Result<(), AllocError> {
        if word == "attach" {
            self.attach(rest)
        } else if word == "wire" {
            self.wire(rest)
        } else {
            self.undo();
            Ok(())
        }
    }

    /// Adds the first clash of constraints that come from these revisions alone.
    pub fn push_first_clash(
        &self,
        alloc: Global,
        out: &mut String,
        settled: &str,
    ) -> Result<(), AllocError> {
        let settled = revision_ids(alloc, settled)?;
        match self.spaces.clash(alloc, settled.as_slice())? {
            Some(clash) => push_clash(out, &clash),
            None => out.push_str("none"),
        }
    }
}

/// Whether a question of this word is a step.
pub fn is_step(word: &str) -> bool {
    word == "attach" || word == "wire" || word == "undo"
}
