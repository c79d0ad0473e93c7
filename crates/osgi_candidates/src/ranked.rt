//! The order in which capabilities are preferred.

ghost use Rattle.std.specs.Prelude.{◌≡◌, IfOk, OnOk, map, reverse};
ghost use Rattle.std.specs.BTreeSet.{IsOrdered};
ghost use Rattle.osgi_candidates.specs.computed.Ranking.{capability_of, ranked_cmp};

use osgi_base::RevisionId;
use osgi_version::Version;
use osgi_world::CapRef;
use std::alloc::{AllocError, Global};
use std::cmp::Reverse;
use std::collections::BTreeSet;

/// A capability, with what it is preferred by. Of two the greater is preferred.
#[derive(Drop, PartialEq, Eq, PartialOrd, Ord)]
pub struct Ranked {
    /// Whether its provider is in force.
    pub in_force: bool,
    pub version: Version,
    /// The bundle of its provider.
    pub bundle: Reverse<u32>,
    pub provider: Reverse<u32>,
    pub owner: Reverse<u32>,
    pub index: Reverse<u32>,
}

impl Ranked {
    fn capability(&self) -> CapRef
        ensures capability { result ≡ capability_of self.now }
    {
        CapRef {
            provider: RevisionId(self.provider.0),
            owner: RevisionId(self.owner.0),
            index: self.index.0,
        }
    }
}

/// The capabilities, the preferred first.
pub fn in_order(alloc: Global, ranked: &BTreeSet<Ranked>) -> Result<Vec<CapRef>, AllocError>
    ensures capabilities { IfOk result (λ list.
        list.items ≡ reverse (map capability_of ranked.now.keys)) }
    ensures ordered { OnOk result (IsOrdered ranked_cmp ranked.now) }
{
    let mut list = Vec::with_capacity(alloc, ranked.len())?;
    for one in ranked {
        list.push(one.capability())?;
    }
    list.reverse();
    Ok(list)
}
