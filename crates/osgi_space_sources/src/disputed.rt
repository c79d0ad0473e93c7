//! The packages of which ends of wires may have different sources.

ghost use Rattle.std.specs.Prelude.{◌≡◌, ◌↔◌, length, ℕ, Contains, IfOk, IsTrue, OnOk};
ghost use Rattle.osgi_world.specs.Lists.{In};
ghost use Rattle.osgi_world.specs.declared.world.Known.{Known};
ghost use Rattle.osgi_space_sources.specs.computed.Clashes.{IsClash};
ghost use Rattle.osgi_space_sources.specs.computed.Disputes.{AreDisputed, AreNoted, HasNoPackage, HasSameEnds, HoldsAll, IsDisputed, IsNoted, IsNotedEnd, NotesMore};
ghost use Rattle.osgi_space_sources.specs.computed.RowSources.{HasExport};
ghost use Rattle.osgi_space_rows.specs.Rows.{OwnExport, RowLists};

use crate::given::Given;
use crate::number_set::NumberSet;
use osgi_base::NumberMap;
use osgi_space_rows::{Attachment, Import, Required, Rows};
use osgi_world::Known;
use std::alloc::{AllocError, Global};
use std::collections::BTreeSet;

/// At least the ends of wires, and at least the packages of which they may have different sources. Who has no wire, and to whom none
/// goes, has its packages from itself, and no other has any from it.
#[derive(Drop)]
pub struct Disputed {
    packages: BTreeSet<u32>,
    ends: NumberSet,
}

impl Disputed {
    fn new(alloc: Global) -> Disputed
        ensures no_package { (p : ℕ) → ¬ IsDisputed result p }
        ensures no_end { (x : ℕ) → ¬ IsNotedEnd result x }
    {
        Disputed {
            packages: BTreeSet::new(alloc),
            ends: NumberSet::new(alloc),
        }
    }

    /// Whether no package is disputed.
    pub fn is_empty(&self) -> bool
        ensures none { IsTrue result ↔ HasNoPackage self.now }
    {
        self.packages.is_empty()
    }

    /// How many packages are disputed.
    pub fn len(&self) -> usize
        ensures len { result ≡ length self.now.packages.keys }
    {
        self.packages.len()
    }

    /// Whether the package is disputed.
    pub fn has(&self, package: u32) -> bool
        ensures has { IsTrue result ↔ IsDisputed self.now «package» }
    {
        self.packages.contains(&package)
    }

    /// Whether the revision is noted as an end.
    fn has_end(&self, revision: u32) -> bool
        ensures has { IsTrue result ↔ IsNotedEnd self.now revision }
    {
        self.ends.has(revision)
    }

    /// Whether the revision, and the one that sees the package, may have different sources of it. Where the answer is true, that need
    /// not be so.
    pub(crate) fn may_differ(&self, revision: u32, pair: Given) -> bool
        ensures same { ¬ IsTrue result → (R : RowLists) → AreDisputed R self.now
            → ¬ IsClash R revision pair }
    {
        self.has(pair.package) || !self.has_end(revision) || !self.has_end(pair.source)
    }
}

/// One possible source of each package, and what is disputed.
#[derive(Drop)]
pub struct Possible {
    first: NumberMap<u32>,
    disputed: Disputed,
}

impl Possible {
    pub fn new(alloc: Global) -> Possible
        ensures none { (p x : ℕ) → ¬ IsNoted result p x }
        ensures no_end { (x : ℕ) → ¬ IsNotedEnd result.disputed x }
    {
        Possible {
            first: NumberMap::new(alloc),
            disputed: Disputed::new(alloc),
        }
    }

    /// The ends of wires that were noted, and at least the packages that have more than one possible source among them.
    pub fn disputed(&self) -> &Disputed
        ensures disputed { result.now ≡ self.now.disputed }
    {
        &self.disputed
    }

    fn note(&mut self, package: u32, source: u32) -> Result<(), AllocError>
        ensures noted { OnOk result (IsNoted self.new «package» source) }
        ensures nothing_lost { HoldsAll self.old self.new }
        ensures ends { HasSameEnds self.old self.new }
    {
        match self.first.get(package).copied() {
            None => {
                self.first.insert(package, source)?;
            }
            Some(first) => {
                if first != source {
                    self.disputed.packages.insert(package)?;
                }
            }
        }
        Ok(())
    }
}

/// Notes the host as what its fragment's exports come from.
pub fn note_fragment(
    possible: &mut Possible,
    rows: &Rows,
    host: u32,
    fragment: u32,
) -> Result<(), AllocError>
    ensures noted { OnOk result ((p : ℕ) → OwnExport rows.now fragment p
        → IsNoted possible.new p host) }
    ensures nothing_lost { HoldsAll possible.old possible.new }
    ensures ends { HasSameEnds possible.old possible.new }
{
    for row in rows.exports.of_revision(fragment) {
        possible.note(row.exported, host)?;
    }
    Ok(())
}

/// Notes the hosts of these attachments as what their fragments' exports come from.
pub fn note_fragments(
    possible: &mut Possible,
    rows: &Rows,
    attached: &[Attachment],
) -> Result<(), AllocError>
    ensures noted { OnOk result ((h f p : ℕ)
        → Contains attached.now (record { host = h; fragment = f }) → OwnExport rows.now f p
        → IsNoted possible.new p h) }
    ensures nothing_lost { HoldsAll possible.old possible.new }
    ensures ends { HasSameEnds possible.old possible.new }
{
    for row in attached {
        note_fragment(possible, rows, row.host, row.fragment)?;
    }
    Ok(())
}

/// Notes the revision as what the exports of its payload come from.
fn note_exports(possible: &mut Possible, rows: &Rows, revision: u32) -> Result<(), AllocError>
    ensures noted { OnOk result ((p : ℕ) → HasExport rows.now revision p
        → IsNoted possible.new p revision) }
    ensures nothing_lost { HoldsAll possible.old possible.new }
    ensures ends { HasSameEnds possible.old possible.new }
{
    note_fragment(possible, rows, revision, revision)?;
    for row in rows.attached.of(revision) {
        note_fragment(possible, rows, revision, row.fragment)?;
    }
    Ok(())
}

/// Notes the revision as the end of a wire, and what its payload exports, unless it was noted before.
fn note_end(possible: &mut Possible, rows: &Rows, revision: u32) -> Result<(), AllocError>
    ensures noted { OnOk result (IsNotedEnd possible.new.disputed revision) }
    ensures extends { NotesMore rows.now possible.old possible.new }
{
    if possible.disputed.has_end(revision) {
        return Ok(());
    }
    note_exports(possible, rows, revision)?;
    possible.disputed.ends.insert(revision)?;
    Ok(())
}

/// Notes the provider of a wire for a package, and its ends.
pub fn note_package_wire(
    possible: &mut Possible,
    rows: &Rows,
    row: Import,
) -> Result<(), AllocError>
    ensures noted { OnOk result (IsNoted possible.new row.imported row.provider) }
    ensures ends { OnOk result (IsNotedEnd possible.new.disputed row.revision
        × IsNotedEnd possible.new.disputed row.provider) }
    ensures extends { NotesMore rows.now possible.old possible.new }
{
    possible.note(row.imported, row.provider)?;
    note_end(possible, rows, row.revision)?;
    note_end(possible, rows, row.provider)?;
    Ok(())
}

/// Notes the ends of a wire for a required bundle.
pub fn note_bundle_wire(
    possible: &mut Possible,
    rows: &Rows,
    row: Required,
) -> Result<(), AllocError>
    ensures ends { OnOk result (IsNotedEnd possible.new.disputed row.revision
        × IsNotedEnd possible.new.disputed row.provider) }
    ensures extends { NotesMore rows.now possible.old possible.new }
{
    note_end(possible, rows, row.revision)?;
    note_end(possible, rows, row.provider)?;
    Ok(())
}

/// Notes the providers of wires for packages, and their ends.
pub fn note_package_wires(
    possible: &mut Possible,
    rows: &Rows,
    imports: &[Import],
) -> Result<(), AllocError>
    ensures noted { OnOk result ((r p x : ℕ)
        → Contains imports.now (record { revision = r; imported = p; provider = x })
        → IsNoted possible.new p x × IsNotedEnd possible.new.disputed r
        × IsNotedEnd possible.new.disputed x) }
    ensures extends { NotesMore rows.now possible.old possible.new }
{
    for row in imports {
        note_package_wire(possible, rows, *row)?;
    }
    Ok(())
}

/// Notes the ends of wires for required bundles.
pub fn note_bundle_wires(
    possible: &mut Possible,
    rows: &Rows,
    required: &[Required],
) -> Result<(), AllocError>
    ensures ends { OnOk result ((row : Required) → Contains required.now row
        → IsNotedEnd possible.new.disputed row.revision
        × IsNotedEnd possible.new.disputed row.provider) }
    ensures extends { NotesMore rows.now possible.old possible.new }
{
    for row in required {
        note_bundle_wire(possible, rows, *row)?;
    }
    Ok(())
}

/// Notes the revision as the source of its own exports, if it is noted as an end.
fn note_own(possible: &mut Possible, rows: &Rows, revision: u32) -> Result<(), AllocError>
    ensures noted { OnOk result (IsNotedEnd possible.old.disputed revision → (p : ℕ)
        → OwnExport rows.now revision p → IsNoted possible.new p revision) }
    ensures nothing_lost { HoldsAll possible.old possible.new }
    ensures ends { HasSameEnds possible.old possible.new }
{
    if !possible.disputed.has_end(revision) {
        return Ok(());
    }
    note_fragment(possible, rows, revision, revision)
}

/// Notes each of these revisions that is noted as an end as the source of its own exports.
pub fn note_known(possible: &mut Possible, rows: &Rows, known: &[Known]) -> Result<(), AllocError>
    ensures noted { OnOk result ((k : Known) (p : ℕ) → In k known.now
        → IsNotedEnd possible.old.disputed k.id.0 → OwnExport rows.now k.id.0 p
        → IsNoted possible.new p k.id.0) }
    ensures nothing_lost { HoldsAll possible.old possible.new }
    ensures ends { HasSameEnds possible.old possible.new }
{
    for each in known {
        note_own(possible, rows, each.id.0)?;
    }
    Ok(())
}

/// The possible sources in the rows.
pub fn possible_sources(alloc: Global, rows: &Rows) -> Result<Possible, AllocError>
    ensures noted { IfOk result (λ possible. AreNoted rows.now possible) }
{
    let mut possible = Possible::new(alloc);
    note_package_wires(&mut possible, rows, rows.imports.all())?;
    note_bundle_wires(&mut possible, rows, rows.required.all())?;
    Ok(possible)
}

/// At least the ends of wires in the rows, and at least the packages of which they may have different sources.
pub fn disputed_packages(alloc: Global, rows: &Rows) -> Result<Disputed, AllocError>
    ensures disputed { IfOk result (λ disputed. AreDisputed rows.now disputed) }
{
    let possible = possible_sources(alloc, rows)?;
    let Possible { disputed, .. } = possible;
    Ok(disputed)
}
