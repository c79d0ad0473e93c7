//! The wirings in force by their revisions.

ghost use Rattle.std.specs.Prelude.{◌≡◌, ◌↔◌, [], ◌∷◌, ◌++◌, IfOk, IsSome, IsTrue, List, None, OnOk};
ghost use Rattle.std.specs.BTreeMap.{get};
ghost use Rattle.std.specs.Option.{option_copied};
ghost use Rattle.std.specs.Ordering.{nat_cmp};
ghost use Rattle.osgi_candidates.specs.computed.Holding.{AreElsewhere, AreFragments, AreHeld, IsElsewhere, PutsElsewhere};
ghost use Rattle.osgi_world.specs.declared.wiring.Wiring.{Wiring};

use osgi_base::{RevisionId, Text};
use osgi_lookup::KnownIndex;
use osgi_world::{Wire, Wiring};
use std::alloc::{AllocError, Global};
use std::collections::{BTreeMap, BTreeSet};

/// What is asked of a wiring: its fragments, and the packages that its revision imports from other revisions.
#[derive(Drop)]
pub struct Held {
    pub fragments: BTreeSet<u32>,
    pub elsewhere: BTreeSet<Text>,
}

/// What is asked of each wiring, by its revision.
#[derive(Drop)]
pub struct HeldWirings {
    alloc: Global,
    wirings: BTreeMap<u32, Held>,
}

impl HeldWirings {
    pub fn new(alloc: Global) -> HeldWirings
        ensures empty { (r : RevisionId) → get nat_cmp result.wirings r.0 ≡ None }
    {
        HeldWirings {
            alloc,
            wirings: BTreeMap::new(alloc),
        }
    }

    /// Adds a wiring.
    pub fn add(&mut self, known: &KnownIndex, wiring: &Wiring) -> Result<(), AllocError>
        ensures added { OnOk result ((W : List Wiring) → AreHeld known.now W self.old
            → AreHeld known.now (W ++ wiring.now ∷ []) self.new) }
    {
        let held = Held {
            fragments: fragment_ids(self.alloc, wiring.fragments.items())?,
            elsewhere: imported_elsewhere(self.alloc, known, wiring)?,
        };
        self.wirings.insert(wiring.revision.0, held)?;
        Ok(())
    }

    /// Adds wirings.
    pub fn add_all(&mut self, known: &KnownIndex, wirings: &[Wiring]) -> Result<(), AllocError>
        ensures added { OnOk result ((W : List Wiring) → AreHeld known.now W self.old
            → AreHeld known.now (W ++ wirings.now) self.new) }
    {
        for wiring in wirings {
            self.add(known, wiring)?;
        }
        Ok(())
    }

    /// What is asked of the wiring of the revision, if it has one.
    pub fn of(&self, revision: RevisionId) -> Option<&Held>
        ensures held { option_copied result ≡ get nat_cmp self.now.wirings revision.0 }
    {
        self.wirings.get(&revision.0)
    }

    /// Whether the revision has a wiring.
    pub fn has(&self, revision: RevisionId) -> bool
        ensures has { IsTrue result ↔ IsSome (get nat_cmp self.now.wirings revision.0) }
    {
        self.wirings.contains_key(&revision.0)
    }
}

fn fragment_ids(alloc: Global, fragments: &[RevisionId]) -> Result<BTreeSet<u32>, AllocError>
    ensures fragments { IfOk result (AreFragments fragments.now) }
{
    let mut ids = BTreeSet::new(alloc);
    for fragment in fragments {
        ids.insert(fragment.0)?;
    }
    Ok(ids)
}

/// The packages that the revision of the wiring imports from other revisions.
fn imported_elsewhere(
    alloc: Global,
    known: &KnownIndex,
    wiring: &Wiring,
) -> Result<BTreeSet<Text>, AllocError>
    ensures elsewhere { IfOk result (AreElsewhere known.now wiring.now.revision wiring.now.wires) }
{
    let mut packages = BTreeSet::new(alloc);
    for wire in wiring.wires.items() {
        add_elsewhere(alloc, &mut packages, known, wiring.revision, wire)?;
    }
    Ok(packages)
}

fn add_elsewhere(
    alloc: Global,
    packages: &mut BTreeSet<Text>,
    known: &KnownIndex,
    revision: RevisionId,
    wire: &Wire,
) -> Result<(), AllocError>
    ensures added { OnOk result (PutsElsewhere packages.old packages.new
        (IsElsewhere known.now revision wire.now)) }
{
    let capability = wire.capability;
    if capability.provider == revision {
        return Ok(());
    }
    if let Some(name) = known.exported_package(capability.owner, capability.index) {
        packages.insert(name.copy(alloc)?)?;
    }
    Ok(())
}
