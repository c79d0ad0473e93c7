//! What is known, by names: the capabilities, also by their texts, the revisions, and the current fragments.

ghost use Rattle.std.specs.Prelude.{◌++◌, List, OnOk};
ghost use Rattle.osgi_candidates.specs.computed.Names.{AddsKnown, AreNames, AreOnce, GrowsBy, HasNone, ListsCapabilities, fragment_added};
ghost use Rattle.osgi_world.specs.declared.world.Known.{Known};

use crate::texts::TextIndex;
use osgi_base::{RevisionId, Text};
use osgi_space_rows::Grouped;
use osgi_world::Known;
use std::alloc::{AllocError, Global};

/// A place in the capabilities of a revision.
#[derive(Clone, Copy, PartialEq, Eq)]
pub struct Place {
    pub owner: RevisionId,
    pub index: u32,
}

/// The capabilities of the revisions that were added by their names, and those by their texts that have any, the revisions by their
/// symbolic names, and the current fragments among them by the symbolic name of their host.
pub struct KnownNames {
    pub capabilities: Grouped<Text, Place>,
    pub texts: TextIndex,
    pub revisions: Grouped<Text, RevisionId>,
    pub fragments: Grouped<Text, RevisionId>,
}

/// Not derived, so that each exit at which one is dropped is a single call, which is cheap to prove.
impl Drop for KnownNames {
    fn drop(self) {
        let KnownNames {
            capabilities: _,
            texts: _,
            revisions: _,
            fragments: _,
        } = self;
    }
}

impl KnownNames {
    pub fn new(alloc: Global) -> KnownNames
        ensures empty { HasNone result }
    {
        KnownNames {
            capabilities: Grouped::new(alloc),
            texts: TextIndex::new(alloc),
            revisions: Grouped::new(alloc),
            fragments: Grouped::new(alloc),
        }
    }

    /// Adds a known revision.
    pub fn add(&mut self, alloc: Global, known: &Known) -> Result<(), AllocError>
        ensures added { OnOk result (AddsKnown known.now self.old self.new) }
    {
        let name = known.revision.get().name.copy(alloc)?;
        self.revisions.push(name, known.id)?;
        add_fragment(alloc, &mut self.fragments, known)?;
        add_capabilities(alloc, &mut self.capabilities, known)?;
        self.texts.add(alloc, known)?;
        Ok(())
    }

    /// Adds known revisions, each of which is known once, to those that stand before them.
    pub fn add_all(&mut self, alloc: Global, known: &[Known]) -> Result<(), AllocError>
        ensures added { OnOk result ((K : List Known) → AreOnce (K ++ known.now)
            → AreNames K self.old → AreNames (K ++ known.now) self.new) }
    {
        for one in known {
            self.add(alloc, one)?;
        }
        Ok(())
    }
}

fn add_fragment(
    alloc: Global,
    fragments: &mut Grouped<Text, RevisionId>,
    known: &Known,
) -> Result<(), AllocError>
    ensures added { OnOk result (GrowsBy fragments.old fragments.new (fragment_added known.now)) }
{
    if !known.current {
        return Ok(());
    }
    if let Some(host) = &known.revision.get().host {
        fragments.push(host.name.copy(alloc)?, known.id)?;
    }
    Ok(())
}

fn add_capabilities(
    alloc: Global,
    capabilities: &mut Grouped<Text, Place>,
    known: &Known,
) -> Result<(), AllocError>
    ensures added { OnOk result (ListsCapabilities known.now capabilities.old capabilities.new) }
{
    let revision = known.revision.get();
    for (index, capability) in revision.capabilities.items().iter().enumerate() {
        let place = Place {
            owner: known.id,
            index: index as u32,
        };
        capabilities.push(capability.name.copy(alloc)?, place)?;
    }
    Ok(())
}
