//! The rows of a world, and the packages that may be disputed in them.

ghost use Rattle.std.specs.Prelude.{◌≡◌, ◌≤◌, ℕ, Contains, IfOk, OnOk, OnErr, drop, length};
ghost use Rattle.osgi_space_sources.specs.computed.Disputes.{AreDisputed, AreNoted, HasSameEnds, HoldsAll, NotesMore, IsNotedEnd, IsNoted};
ghost use Rattle.osgi_space.specs.Kept.{FollowsRows};
ghost use Rattle.osgi_space_rows.specs.AllKnown.{AreAllKnown};
ghost use Rattle.osgi_space_rows.specs.Rows.{OwnExport, RowLists};
ghost use Rattle.osgi_space_rows.specs.Worlds.{AddsStep, AreNumbered, AreRowsIn, TakesBack, with_added};
ghost use Rattle.osgi_space_rows.specs.declared.rows.Required.{Required};
ghost use Rattle.osgi_world.specs.Decisions.{attached, wired};
ghost use Rattle.osgi_world.specs.Lists.{In};

use crate::kept_rows::KeptRows;
use osgi_base::RevisionId;
use osgi_space_rows::{Added, Rows, WorldRows};
use osgi_space_sources::{
    Disputed, Possible, note_bundle_wire, note_bundle_wires, note_fragment, note_fragments,
    note_known, note_package_wire, note_package_wires, possible_sources,
};
use osgi_world::{Known, Wire, Wiring};
use std::alloc::{AllocError, Global};
use std::marker::Model;

/// Rows with the packages of which ends of wires may have different sources, which are kept up as wires and fragments are added. What
/// is taken back leaves them as they are: of any other package the ends of wires still have at most one possible source.
pub struct DisputedRows<'w> {
    rows: WorldRows<'w>,
    possible: Possible,
}

/// Not derived, so that each exit at which one is dropped is a single call, which is cheap to prove.
impl Drop for DisputedRows<'_> {
    fn drop(self) {
        let DisputedRows {
            rows: _,
            possible: _,
        } = self;
    }
}

impl<'w> Model for DisputedRows<'w> {
    ghost use Rattle.osgi_space_sources.specs.computed.Disputes.{AreNoted};
    ghost use Rattle.osgi_space_rows.specs.Worlds.{WorldLists};
    ghost use Rattle.std.specs.Coded.{codes};
    ghost use Rattle.osgi_model.specs.contracts.filter.Filter as filter;
    ghost use Rattle.osgi_model.specs.contracts.value.Value as value;

    ghost Value = { WorldLists };

    ghost coded = { Prim.hlevel (codes, filter.the_row.coded, value.the_row.coded) };

    ghost view = { λ d. d.rows };

    ghost invariant = { λ d. AreNoted d.rows.rows d.possible };
}

impl<'w> DisputedRows<'w> {
    /// The rows of these wirings.
    pub fn new(
        alloc: Global,
        known: &'w [Known],
        wirings: &[Wiring],
    ) -> Result<DisputedRows<'w>, AllocError>
        ensures known { IfOk result (λ made. made.known ≡ known.now) }
        ensures rows { IfOk result (λ made. AreRowsIn made wirings.now) }
        ensures numbered { IfOk result (λ made. AreNumbered made.names made.rows) }
    {
        let rows = WorldRows::new(alloc, known, wirings)?;
        let possible = possible_sources(alloc, rows.rows())?;
        Ok(DisputedRows { rows, possible })
    }

    /// The rows of a world that was followed: what is new is added to those that were kept. If memory runs out, what was kept is
    /// lost.
    pub fn resume(
        alloc: Global,
        kept: KeptRows,
        known: &'w [Known],
        wirings: &[Wiring],
    ) -> Result<DisputedRows<'w>, AllocError>
        requires follows { FollowsRows kept known.now wirings.now }
        ensures known { IfOk result (λ made. made.known ≡ known.now) }
        ensures rows { IfOk result (λ made. AreRowsIn made wirings.now) }
        ensures numbered { IfOk result (λ made. AreNumbered made.names made.rows) }
    {
        let KeptRows {
            named,
            possible,
            known: first,
            wirings: followed,
        } = kept;
        let before = WorldRows::of_more(alloc, named, known, first)?;
        let possible = with_known(possible, before.rows(), &known[first..])?;
        let places = Places::at_end(before.rows());
        let rows = before.with_wirings(&wirings[followed..])?;
        let possible = with_more(possible, rows.rows(), places)?;
        Ok(DisputedRows { rows, possible })
    }

    /// The rows, to be kept while the world grows.
    pub fn keep(self, wirings: &[Wiring]) -> KeptRows
        requires rows { AreRowsIn self wirings.now }
        requires all_known { AreAllKnown self.known wirings.now }
        ensures follows { FollowsRows result self.entry.known wirings.now }
    {
        let DisputedRows { rows, possible } = self;
        let known = rows.known().all().len();
        KeptRows {
            named: rows.into_named(),
            possible,
            known,
            wirings: wirings.len(),
        }
    }

    pub fn world_rows(&self) -> &WorldRows<'w>
        ensures rows { result.now ≡ self.now }
    {
        &self.rows
    }

    /// At least the ends of wires, and at least the packages of which they may have different sources.
    pub fn disputed(&self) -> &Disputed
        ensures disputed { AreDisputed self.now.rows result.now }
    {
        self.possible.disputed()
    }

    /// Adds a wire to the revision, and returns its row. If memory runs out, nothing changes.
    pub fn add_wire(&mut self, revision: RevisionId, wire: &Wire) -> Result<Added, AllocError>
        ensures added { IfOk result (λ added.
            AddsStep self.old self.new (wired revision wire.now) added) }
        ensures unchanged { OnErr result (self.new ≡ self.old) }
    {
        let added = self.rows.add_wire(revision, wire)?;
        if let Err(error) = note(&mut self.possible, self.rows.rows(), added) {
            self.rows.take_back(added);
            return Err(error);
        }
        Ok(added)
    }

    /// Attaches the fragment to the host, and returns the row. If memory runs out, nothing changes.
    pub fn attach(&mut self, host: RevisionId, fragment: RevisionId) -> Result<Added, AllocError>
        ensures added { IfOk result (λ added.
            AddsStep self.old self.new (attached host fragment) added) }
        ensures unchanged { OnErr result (self.new ≡ self.old) }
    {
        let added = self.rows.attach(host, fragment)?;
        if let Err(error) = note(&mut self.possible, self.rows.rows(), added) {
            self.rows.take_back(added);
            return Err(error);
        }
        Ok(added)
    }

    /// Takes back what was added last. It takes no memory.
    pub fn take_back(&mut self, added: Added)
        requires last { (R : RowLists) × (self.old.rows ≡ with_added R added) }
        ensures taken { TakesBack self.old self.new added }
    {
        self.rows.take_back(added);
    }
}

/// From where on rows are new.
#[derive(Clone, Copy)]
struct Places {
    imports: usize,
    required: usize,
    attached: usize,
}

impl Places {
    /// Behind all of these rows.
    fn at_end(rows: &Rows) -> Places
        ensures imports { result.imports ≡ length rows.now.imports }
        ensures required { result.required ≡ length rows.now.required }
        ensures attached { result.attached ≡ length rows.now.attached }
    {
        Places {
            imports: rows.imports.all().len(),
            required: rows.required.all().len(),
            attached: rows.attached.all().len(),
        }
    }
}

/// Notes the sources and the ends that a row adds.
fn note(possible: &mut Possible, rows: &Rows, added: Added) -> Result<(), AllocError>
    ensures noted { OnOk result ((R : RowLists) → rows.now ≡ with_added R added
        → AreNoted R possible.old → AreNoted rows.now possible.new) }
    ensures extends { NotesMore rows.now possible.old possible.new }
{
    match added {
        Added::Import(row) => note_package_wire(possible, rows, row)?,
        Added::Attachment(row) => note_fragment(possible, rows, row.host, row.fragment)?,
        Added::Required(row) => note_bundle_wire(possible, rows, row)?,
        Added::Nothing => {}
    }
    Ok(())
}

/// The possible sources with those of these revisions that are noted as ends as the sources of their own exports.
fn with_known(possible: Possible, rows: &Rows, known: &[Known]) -> Result<Possible, AllocError>
    ensures noted { IfOk result (λ more. (k : Known) (p : ℕ) → In k known.now
        → IsNotedEnd possible.disputed k.id.0 → OwnExport rows.now k.id.0 p
        → IsNoted more p k.id.0) }
    ensures nothing_lost { IfOk result (HoldsAll possible) }
    ensures ends { IfOk result (HasSameEnds possible) }
{
    let mut more = possible;
    note_known(&mut more, rows, known)?;
    Ok(more)
}

/// The possible sources with those of the wires and the attachments from these places on.
fn with_more(possible: Possible, rows: &Rows, places: Places) -> Result<Possible, AllocError>
    requires imports { places.imports ≤ length rows.now.imports }
    requires required { places.required ≤ length rows.now.required }
    requires attached { places.attached ≤ length rows.now.attached }
    ensures imports { IfOk result (λ more. (r p x : ℕ)
        → Contains (drop places.imports rows.now.imports)
        (record { revision = r; imported = p; provider = x })
        → IsNoted more p x × IsNotedEnd more.disputed r × IsNotedEnd more.disputed x) }
    ensures required { IfOk result (λ more. (row : Required)
        → Contains (drop places.required rows.now.required) row
        → IsNotedEnd more.disputed row.revision × IsNotedEnd more.disputed row.provider) }
    ensures attached { IfOk result (λ more. (h f p : ℕ)
        → Contains (drop places.attached rows.now.attached) (record { host = h; fragment = f })
        → OwnExport rows.now f p → IsNoted more p h) }
    ensures extends { IfOk result (NotesMore rows.now possible) }
{
    let mut more = possible;
    note_package_wires(&mut more, rows, &rows.imports.all()[places.imports..])?;
    note_bundle_wires(&mut more, rows, &rows.required.all()[places.required..])?;
    note_fragments(&mut more, rows, &rows.attached.all()[places.attached..])?;
    Ok(more)
}
