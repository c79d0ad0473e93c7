//! Problems for a resolver: a revision to be resolved in a world, and the candidates of requirements.

ghost use Rattle.std.specs.Prelude.{◌≡◌, IfOk};

use crate::wiring::{CapRef, ReqRef};
use crate::world::World;
use osgi_base::{Copied, List, RevisionId};
use std::alloc::{AllocError, Global};

/// A requirement, and the capabilities that it may be wired to, the preferred first.
#[derive(Drop)]
pub struct Choice {
    pub requirement: ReqRef,
    pub candidates: List<CapRef>,
}

impl Choice {
    pub fn copy(&self, alloc: Global) -> Result<Choice, AllocError>
        ensures same { IfOk result (λ copy. copy ≡ self.now) }
    {
        Ok(Choice {
            requirement: self.requirement,
            candidates: self.candidates.copy(alloc)?,
        })
    }
}

impl Copied for Choice {
    fn copied(&self, alloc: Global) -> Result<Choice, AllocError> {
        self.copy(alloc)
    }
}

/// A revision to be resolved, and what there is to choose from.
#[derive(Drop)]
pub struct Problem {
    pub world: World,
    pub root: RevisionId,
    pub choices: List<Choice>,
}

impl Problem {
    pub fn copy(&self, alloc: Global) -> Result<Problem, AllocError>
        ensures same { IfOk result (λ copy. copy ≡ self.now) }
    {
        Ok(Problem {
            world: self.world.copy(alloc)?,
            root: self.root,
            choices: self.choices.copy(alloc)?,
        })
    }
}

impl Copied for Problem {
    fn copied(&self, alloc: Global) -> Result<Problem, AllocError> {
        self.copy(alloc)
    }
}
