//! The lines of a session.

ghost use Rattle.std.specs.Prelude.{◌≡◌, IfOk};

use crate::command::Command;
use osgi_base::Copied;
use std::alloc::{AllocError, Global};

/// What a line says.
#[derive(Drop)]
pub enum Content {
    /// Nothing, or a comment.
    Empty,
    /// That the lanes before it are to end before the lines after it begin.
    Join,
    /// Something outside the grammar.
    Bad,
    Run(Command),
}

impl Content {
    pub fn copy(&self, alloc: Global) -> Result<Content, AllocError>
        ensures same { IfOk result (λ copy. copy ≡ self.now) }
    {
        match self {
            Content::Empty => Ok(Content::Empty),
            Content::Join => Ok(Content::Join),
            Content::Bad => Ok(Content::Bad),
            Content::Run(command) => Ok(Content::Run(command.copy(alloc)?)),
        }
    }
}

/// A line of the input. Lines are numbered from 1. The lines of one lane are run one after another by a caller of their own, beside
/// those of other lanes. Lanes are numbered from 1, and the lane is 0 where the line names none.
pub struct Line {
    pub number: u32,
    pub lane: u32,
    pub content: Content,
}

/// Not derived, so that each exit at which one is dropped is a single call, which is cheap to prove.
impl Drop for Line {
    fn drop(self) {
        let Line {
            number: _,
            lane: _,
            content: _,
        } = self;
    }
}

impl Line {
    pub fn copy(&self, alloc: Global) -> Result<Line, AllocError>
        ensures same { IfOk result (λ copy. copy ≡ self.now) }
    {
        Ok(Line {
            number: self.number,
            lane: self.lane,
            content: self.content.copy(alloc)?,
        })
    }
}

impl Copied for Line {
    fn copied(&self, alloc: Global) -> Result<Line, AllocError> {
        self.copy(alloc)
    }
}
