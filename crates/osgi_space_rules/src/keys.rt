//! The keys under which the parts of wirings are found.

use osgi_base::{RevisionId, Text};
use osgi_lookup::KnownIndex;
use osgi_world::{CapRef, ReqRef, Wire};
use std::alloc::{AllocError, Global};

/// A host and a fragment that is attached to it.
#[derive(Clone, Copy, PartialEq, Eq, PartialOrd, Ord)]
pub struct Attachment {
    pub host: RevisionId,
    pub fragment: RevisionId,
}

/// A place in the requirements or in the capabilities of a revision.
#[derive(Clone, Copy, PartialEq, Eq, PartialOrd, Ord)]
pub struct Place {
    pub owner: RevisionId,
    pub index: u32,
}

/// A requirement that a revision has a wire for.
#[derive(Clone, Copy, PartialEq, Eq, PartialOrd, Ord)]
pub struct WiredPlace {
    pub revision: RevisionId,
    pub requirement: Place,
}

impl WiredPlace {
    ghost use Rattle.std.specs.Prelude.{◌≡◌};
    ghost use Rattle.osgi_space_rules.specs.computed.Keys.{wired_place};

    pub fn new(revision: RevisionId, requirement: ReqRef) -> WiredPlace
        ensures place { result ≡ wired_place revision requirement }
    {
        WiredPlace {
            revision,
            requirement: Place {
                owner: requirement.owner,
                index: requirement.index,
            },
        }
    }
}

/// A package as a revision sees it.
#[derive(Drop, PartialEq, Eq, PartialOrd, Ord)]
pub struct PackageAt {
    pub revision: RevisionId,
    pub name: Text,
}

impl PackageAt {
    ghost use Rattle.std.specs.Prelude.{◌≡◌, IfOk};
    ghost use Rattle.osgi_space_rules.specs.computed.Keys.{package_at};

    pub fn new(alloc: Global, revision: RevisionId, name: &Text) -> Result<PackageAt, AllocError>
        ensures package { IfOk result (λ made. made ≡ package_at revision name.now) }
    {
        Ok(PackageAt {
            revision,
            name: name.copy(alloc)?,
        })
    }
}

/// A capability with its provider.
#[derive(Clone, Copy, PartialEq, Eq, PartialOrd, Ord)]
pub struct Provided {
    pub provider: RevisionId,
    pub place: Place,
}

/// What only one wire of a wiring may have: a requirement, or, where the requirement may have several wires, the requirement
/// with a capability.
#[derive(Clone, Copy, PartialEq, Eq, PartialOrd, Ord)]
pub struct WireKey {
    pub requirement: Place,
    pub capability: Option<Provided>,
}

impl WireKey {
    ghost use Rattle.std.specs.Prelude.{◌≡◌};
    ghost use Rattle.osgi_space_rules.specs.computed.Keys.{wire_key};

    pub fn new(known: &KnownIndex, wire: Wire) -> WireKey
        ensures key { result ≡ wire_key known.now wire }
    {
        let requirement = Place {
            owner: wire.requirement.owner,
            index: wire.requirement.index,
        };
        if !known.is_multiple(wire.requirement) {
            return WireKey {
                requirement,
                capability: None,
            };
        }
        WireKey {
            requirement,
            capability: Some(Provided::new(wire.capability)),
        }
    }
}

impl Provided {
    ghost use Rattle.std.specs.Prelude.{◌≡◌};
    ghost use Rattle.osgi_space_rules.specs.computed.Keys.{provided};

    fn new(capability: CapRef) -> Provided
        ensures capability { result ≡ provided capability }
    {
        Provided {
            provider: capability.provider,
            place: Place {
                owner: capability.owner,
                index: capability.index,
            },
        }
    }
}
