//! Wirings: which capabilities meet the requirements of a resolved bundle, and which fragments it has.

ghost use Rattle.std.specs.Prelude.{◌≡◌, IfOk};

use osgi_base::{Copied, List, RevisionId};
use std::alloc::{AllocError, Global};

/// A requirement by its place: in its owner's requirements, with the dynamic imports after them, counted from 0.
#[derive(Clone, Copy, PartialEq, Eq)]
pub struct ReqRef {
    pub owner: RevisionId,
    pub index: u32,
}

impl ReqRef {
    pub fn copy(&self, _alloc: Global) -> Result<ReqRef, AllocError>
        ensures same { IfOk result (λ copy. copy ≡ self.now) }
    {
        Ok(*self)
    }
}

impl Copied for ReqRef {
    fn copied(&self, _alloc: Global) -> Result<ReqRef, AllocError> {
        Ok(*self)
    }
}

/// A capability by its place in its owner's capabilities, counted from 0, and the revision that provides it: its owner,
/// or the host that its owner is attached to.
#[derive(Clone, Copy, PartialEq, Eq)]
pub struct CapRef {
    pub provider: RevisionId,
    pub owner: RevisionId,
    pub index: u32,
}

impl CapRef {
    pub fn copy(&self, _alloc: Global) -> Result<CapRef, AllocError>
        ensures same { IfOk result (λ copy. copy ≡ self.now) }
    {
        Ok(*self)
    }
}

impl Copied for CapRef {
    fn copied(&self, _alloc: Global) -> Result<CapRef, AllocError> {
        Ok(*self)
    }
}

/// A wire: a requirement, and the capability that it gets.
#[derive(Clone, Copy, PartialEq, Eq)]
pub struct Wire {
    pub requirement: ReqRef,
    pub capability: CapRef,
}

impl Wire {
    pub fn copy(&self, _alloc: Global) -> Result<Wire, AllocError>
        ensures same { IfOk result (λ copy. copy ≡ self.now) }
    {
        Ok(*self)
    }
}

impl Copied for Wire {
    fn copied(&self, _alloc: Global) -> Result<Wire, AllocError> {
        Ok(*self)
    }
}

/// The wiring of a resolved revision: the wires of its requirements and of its fragments', and its fragments.
#[derive(Drop)]
pub struct Wiring {
    pub revision: RevisionId,
    pub wires: List<Wire>,
    pub fragments: List<RevisionId>,
}

impl Wiring {
    pub fn copy(&self, alloc: Global) -> Result<Wiring, AllocError>
        ensures same { IfOk result (λ copy. copy ≡ self.now) }
    {
        Ok(Wiring {
            revision: self.revision,
            wires: self.wires.copy(alloc)?,
            fragments: self.fragments.copy(alloc)?,
        })
    }
}

impl Copied for Wiring {
    fn copied(&self, alloc: Global) -> Result<Wiring, AllocError> {
        self.copy(alloc)
    }
}
