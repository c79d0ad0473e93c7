//! The packages that a revision sees, by their names, with their sources.

ghost use Rattle.std.specs.Prelude.{◌≡◌, ◌↔◌, ℕ, List, All, Any, IfOk, OnOk, map};
ghost use Rattle.std.specs.BTreeMap.{IsOrdered};
ghost use Rattle.std.specs.List.Sorted.{IsStrictlyIncreasing};
ghost use Rattle.osgi_base.specs.computed.Texts.{text_cmp};
ghost use Rattle.osgi_base.specs.declared.ids.RevisionId.{RevisionId};
ghost use Rattle.osgi_space_sources.specs.declared.given.Given.{Given};
ghost use Rattle.osgi_space.specs.Seen.{IsClassSpace};
ghost use Rattle.osgi_space.specs.computed.ByName.{AddsSource, HasSource, IsFilled, as_entry};
ghost use Rattle.osgi_space.specs.declared.seen_packages.PackageSources.{PackageSources};
ghost use Rattle.osgi_space_rows.specs.Names.{HasNumber};
ghost use Rattle.osgi_space_rows.specs.Worlds.{AreRowsIn};
ghost use Rattle.osgi_world.specs.declared.wiring.Wiring.{Wiring};

use crate::naming::as_ids;
use osgi_base::{List, RevisionId, Text};
use osgi_space_rows::{Names, WorldRows};
use osgi_space_sources::{Given, space_of};
use std::alloc::{AllocError, Global};
use std::collections::{BTreeMap, BTreeSet};

/// A package, and its sources.
#[derive(Drop, PartialEq, Eq)]
pub struct PackageSources {
    pub package: Text,
    pub sources: List<RevisionId>,
}

/// Adds a source to those of the package.
fn add_source(
    alloc: Global,
    space: &mut BTreeMap<Text, BTreeSet<u32>>,
    package: &Text,
    source: u32,
) -> Result<(), AllocError>
    requires filled { IsFilled space.old }
    ensures filled { OnOk result (IsFilled space.new) }
    ensures added { OnOk result (AddsSource space.old space.new «package».now source) }
{
    if let Some(sources) = space.get_mut(package) {
        sources.insert(source)?;
        return Ok(());
    }
    let mut sources = BTreeSet::new(alloc);
    sources.insert(source)?;
    space.insert(package.copy(alloc)?, sources)?;
    Ok(())
}

/// The sources by the names of their packages.
fn by_name(
    alloc: Global,
    names: &Names,
    givens: &[Given],
) -> Result<BTreeMap<Text, BTreeSet<u32>>, AllocError>
    ensures filled { IfOk result IsFilled }
    ensures sources { IfOk result (λ space. (p : List ℕ) (x : ℕ) → HasSource space p x
        ↔ Any (λ (g : Given). HasNumber names.now p g.package × (g.source ≡ x)) givens.now) }
{
    let mut space = BTreeMap::new(alloc);
    for given in givens {
        if let Some(name) = names.name(given.package) {
            add_source(alloc, &mut space, name, given.source)?;
        }
    }
    Ok(space)
}

fn entry(
    alloc: Global,
    package: &Text,
    sources: &BTreeSet<u32>,
) -> Result<PackageSources, AllocError>
    ensures entry { IfOk result (λ entry. entry ≡ as_entry («package».now, sources.now)) }
    ensures rising { IfOk result (λ entry.
        IsStrictlyIncreasing (map (λ (r : RevisionId). r.0) entry.sources)) }
{
    let numbers: Vec<u32> = sources.iter().copied().collect(alloc)?;
    Ok(PackageSources {
        package: package.copy(alloc)?,
        sources: as_ids(alloc, numbers.as_slice())?,
    })
}

/// The packages with their sources, by rising bytes of the packages.
fn in_order(
    alloc: Global,
    space: &BTreeMap<Text, BTreeSet<u32>>,
) -> Result<List<PackageSources>, AllocError>
    ensures same { IfOk result (λ list. list ≡ map as_entry space.now.entries) }
    ensures ordered { IfOk result (λ list. IsOrdered text_cmp space.now) }
    ensures rising { IfOk result (λ list.
        All (λ (s : PackageSources).
        IsStrictlyIncreasing (map (λ (r : RevisionId). r.0) s.sources)) list) }
{
    let mut list = List::with_capacity(alloc, space.len())?;
    for (package, sources) in space.iter() {
        list.push(entry(alloc, package, sources)?)?;
    }
    Ok(list)
}

/// The packages that the revision sees, by rising bytes, with their sources, in the wirings whose rows these are.
pub fn space_in(
    alloc: Global,
    rows: &WorldRows,
    revision: RevisionId,
) -> Result<List<PackageSources>, AllocError>
    ensures space { IfOk result (λ list. (W : List Wiring) → AreRowsIn rows.now W
        → IsClassSpace rows.now.known W revision list) }
{
    let givens = space_of(alloc, rows.rows(), revision.0)?;
    let space = by_name(alloc, rows.names(), givens.as_slice())?;
    Ok(in_order(alloc, &space)?)
}
