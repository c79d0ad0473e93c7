//! The clauses of a header's value, as data.

ghost use Rattle.std.specs.Prelude.{◌≡◌, IfOk};

use crate::fault::HeaderFault;
use osgi_base::{Copied, List, Text};
use std::alloc::{AllocError, Global};

/// A directive: `name:=value`.
#[derive(Drop, PartialEq, Eq)]
pub struct Pair {
    pub name: Text,
    pub value: Text,
}

impl Pair {
    pub fn copy(&self, alloc: Global) -> Result<Pair, AllocError>
        ensures same { IfOk result (λ copy. copy ≡ self.now) }
    {
        Ok(Pair {
            name: self.name.copy(alloc)?,
            value: self.value.copy(alloc)?,
        })
    }
}

impl Copied for Pair {
    fn copied(&self, alloc: Global) -> Result<Pair, AllocError> {
        self.copy(alloc)
    }
}

/// An attribute: `name=value`, whose kind is `String`, or `name:kind=value`.
#[derive(Drop, PartialEq, Eq)]
pub struct Typed {
    pub name: Text,
    pub kind: Text,
    pub value: Text,
}

impl Typed {
    pub fn copy(&self, alloc: Global) -> Result<Typed, AllocError>
        ensures same { IfOk result (λ copy. copy ≡ self.now) }
    {
        Ok(Typed {
            name: self.name.copy(alloc)?,
            kind: self.kind.copy(alloc)?,
            value: self.value.copy(alloc)?,
        })
    }
}

impl Copied for Typed {
    fn copied(&self, alloc: Global) -> Result<Typed, AllocError> {
        self.copy(alloc)
    }
}

/// A clause: its paths, and its directives and attributes, each in the order in which they stand.
#[derive(Drop, PartialEq, Eq)]
pub struct Clause {
    pub paths: List<Text>,
    pub directives: List<Pair>,
    pub attributes: List<Typed>,
}

impl Clause {
    pub fn copy(&self, alloc: Global) -> Result<Clause, AllocError>
        ensures same { IfOk result (λ copy. copy ≡ self.now) }
    {
        Ok(Clause {
            paths: self.paths.copy(alloc)?,
            directives: self.directives.copy(alloc)?,
            attributes: self.attributes.copy(alloc)?,
        })
    }
}

impl Copied for Clause {
    fn copied(&self, alloc: Global) -> Result<Clause, AllocError> {
        self.copy(alloc)
    }
}

/// A clause, and the byte at which it begins: 0, or right after the `,` before it.
#[derive(Drop, PartialEq, Eq)]
pub struct ClauseAt {
    pub at: u64,
    pub clause: Clause,
}

/// The clauses of a value before its first fault, and that fault if it has one.
#[derive(Drop, PartialEq, Eq)]
pub struct ReadClauses {
    pub clauses: List<ClauseAt>,
    pub fault: Option<HeaderFault>,
}
