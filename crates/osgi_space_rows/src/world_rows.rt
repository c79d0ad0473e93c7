//! The rows of a world, and what is known of its revisions.

ghost use Rattle.std.specs.Prelude.{◌≡◌, ◌≤◌, ◌∷◌, [], List, IfOk, OnOk, OnErr, length, take};
ghost use Rattle.osgi_world.specs.Decisions.{attached, wired};
ghost use Rattle.osgi_world.specs.declared.wiring.Wiring.{Wiring};
ghost use Rattle.osgi_space_rows.specs.Agree.{AreRowsOf};
ghost use Rattle.osgi_space_rows.specs.AllKnown.{AreAllKnown};
ghost use Rattle.osgi_space_rows.specs.Names.{name_numbered};
ghost use Rattle.osgi_space_rows.specs.Worlds.{AddsKnown, AddsStep, AddsWirings, AreNumbered, AreRowsIn, AreNamed, TakesBack, with_added};
ghost use Rattle.osgi_space_rows.specs.computed.Growing.{IsNumbered, RowsAfter};

use crate::added::Added;
use crate::named::Named;
use crate::names::Names;
use crate::rows::{Attachment, Import, Required, Rows};
use osgi_base::RevisionId;
use osgi_lookup::{KnownIndex, is_bundle, is_package};
use osgi_world::{Known, Wire, Wiring};
use std::alloc::{AllocError, Global};
use std::marker::Model;

/// The known revisions, and the rows of wirings. Wires and fragments are added and taken back one by one.
pub struct WorldRows<'w> {
    known: KnownIndex<'w>,
    named: Named,
}

/// Not derived, so that each exit at which one is dropped is a single call, which is cheap to prove.
impl Drop for WorldRows<'_> {
    fn drop(self) {
        let WorldRows { known: _, named: _ } = self;
    }
}

impl<'w> Model for WorldRows<'w> {
    ghost use Rattle.osgi_space_rows.specs.Worlds.{AreNumbered, WorldLists};
    ghost use Rattle.std.specs.Coded.{codes};
    ghost use Rattle.osgi_model.specs.contracts.filter.Filter as filter;
    ghost use Rattle.osgi_model.specs.contracts.value.Value as value;

    ghost Value = { WorldLists };

    ghost coded = { Prim.hlevel (codes, filter.the_row.coded, value.the_row.coded) };

    ghost view = { λ w. record { known = w.known; names = w.named.names; rows = w.named.rows } };

    ghost invariant = { λ w. AreNumbered w.named.names w.named.rows };
}

impl<'w> WorldRows<'w> {
    /// The rows of these wirings. Of revisions with one id the first counts; a revision may have several wirings.
    pub fn new(
        alloc: Global,
        known: &'w [Known],
        wirings: &[Wiring],
    ) -> Result<WorldRows<'w>, AllocError>
        ensures known { IfOk result (λ made. made.known ≡ known.now) }
        ensures rows { IfOk result (λ made. AreRowsIn made wirings.now) }
        ensures numbered { IfOk result (λ made. AreNumbered made.names made.rows) }
    {
        let made = WorldRows::of_known(alloc, known)?;
        Ok(made.with_wirings(wirings)?)
    }

    /// The rows of what is known, without wirings.
    fn of_known(alloc: Global, known: &'w [Known]) -> Result<WorldRows<'w>, AllocError>
        ensures known { IfOk result (λ made. made.known ≡ known.now) }
        ensures rows { IfOk result (λ made. AreRowsIn made []) }
        ensures numbered { IfOk result (λ made. AreNumbered made.names made.rows) }
    {
        Ok(WorldRows::of_more(alloc, Named::new(alloc), known, 0)?)
    }

    /// The rows of more that is known: to rows of the first so many, what the others export and use is added.
    pub fn of_more(
        alloc: Global,
        named: Named,
        known: &'w [Known],
        first: usize,
    ) -> Result<WorldRows<'w>, AllocError>
        requires named { AreNamed named }
        requires first { first ≤ length known.now }
        ensures known { IfOk result (λ made. made.known ≡ known.now) }
        ensures added { IfOk result (λ made. (W : List Wiring)
            → AreAllKnown (take first known.now) W
            → AreRowsOf (take first known.now) W (name_numbered named.names) named.rows
            → AddsKnown (take first known.now) W named made) }
        ensures numbered { IfOk result (λ made. AreNumbered made.names made.rows) }
    {
        let index = KnownIndex::new(alloc, known)?;
        let mut grown = named;
        grown.add_known(&index, &known[first..])?;
        Ok(WorldRows {
            known: index,
            named: grown,
        })
    }

    /// The rows with those of more wirings.
    pub fn with_wirings(self, wirings: &[Wiring]) -> Result<WorldRows<'w>, AllocError>
        ensures added { IfOk result (λ made. AddsWirings self.entry made wirings.now) }
    {
        let mut made = self;
        for wiring in wirings {
            made.add_wiring(wiring)?;
        }
        Ok(made)
    }

    /// The rows with their names, without what is known.
    pub fn into_named(self) -> Named
        ensures names { result.names ≡ self.entry.names }
        ensures rows { result.rows ≡ self.entry.rows }
        ensures numbered { AreNumbered result.names result.rows }
    {
        let WorldRows { known: _, named } = self;
        named
    }

    pub fn known(&self) -> &KnownIndex<'w>
        ensures known { result.now ≡ self.now.known }
    {
        &self.known
    }

    pub fn names(&self) -> &Names
        ensures names { result.now ≡ self.now.names }
        ensures numbered { AreNumbered self.now.names self.now.rows }
    {
        &self.named.names
    }

    pub fn rows(&self) -> &Rows
        ensures rows { result.now ≡ self.now.rows }
        ensures numbered { AreNumbered self.now.names self.now.rows }
    {
        &self.named.rows
    }

    /// Adds a wire to the revision, and returns its row. If memory runs out, nothing changes.
    pub fn add_wire(&mut self, revision: RevisionId, wire: &Wire) -> Result<Added, AllocError>
        ensures added { IfOk result (λ added.
            AddsStep self.old self.new (wired revision wire.now) added) }
        ensures unchanged { OnErr result (self.new ≡ self.old) }
    {
        let added = self.row_of(revision, wire);
        self.add(added)?;
        Ok(added)
    }

    /// Attaches the fragment to the host, and returns the row. If memory runs out, nothing changes.
    pub fn attach(&mut self, host: RevisionId, fragment: RevisionId) -> Result<Added, AllocError>
        ensures added { IfOk result (λ added.
            AddsStep self.old self.new (attached host fragment) added) }
        ensures unchanged { OnErr result (self.new ≡ self.old) }
    {
        let added = Added::Attachment(Attachment {
            host: host.0,
            fragment: fragment.0,
        });
        self.add(added)?;
        Ok(added)
    }

    /// Takes back what was added last. It takes no memory.
    pub fn take_back(&mut self, added: Added)
        ensures taken { TakesBack self.old self.new added }
    {
        match added {
            Added::Import(_) => {
                self.named.rows.imports.pop();
            }
            Added::Required(_) => {
                self.named.rows.required.pop();
            }
            Added::Attachment(_) => {
                self.named.rows.attached.pop();
            }
            Added::Nothing => {}
        }
    }

    /// The row of a wire, if it has one.
    fn row_of(&self, revision: RevisionId, wire: &Wire) -> Added
        ensures numbered { IsNumbered self.now.names result }
        ensures agree { RowsAfter self.now (wired revision wire.now) (λ R. with_added R result) }
    {
        let provider = wire.capability.provider.0;
        let Some(capability) = self
            .known
            .capability(wire.capability.owner, wire.capability.index)
        else {
            return Added::Nothing;
        };
        if is_bundle(capability.namespace.bytes()) {
            return Added::Required(Required {
                revision: revision.0,
                provider,
                reexport: self.known.is_reexport(wire.requirement),
            });
        }
        if !is_package(capability.namespace.bytes()) {
            return Added::Nothing;
        }
        match self.named.names.number(&capability.name) {
            Some(imported) => Added::Import(Import {
                revision: revision.0,
                imported,
                provider,
            }),
            None => Added::Nothing,
        }
    }

    fn add(&mut self, added: Added) -> Result<(), AllocError>
        requires numbered { IsNumbered self.old.names added }
        ensures added { OnOk result (self.new
            ≡ record self.old { rows = with_added self.old.rows added }) }
        ensures numbered { OnOk result (AreNumbered self.new.names self.new.rows) }
        ensures unchanged { OnErr result (self.new ≡ self.old) }
    {
        match added {
            Added::Import(row) => self.named.rows.imports.push(row)?,
            Added::Required(row) => self.named.rows.required.push(row)?,
            Added::Attachment(row) => self.named.rows.attached.push(row)?,
            Added::Nothing => {}
        }
        Ok(())
    }

    fn add_wiring(&mut self, wiring: &Wiring) -> Result<(), AllocError>
        ensures added { OnOk result (AddsWirings self.old self.new (wiring.now ∷ [])) }
    {
        self.add_wires(wiring.revision, wiring.wires.items())?;
        self.add_fragments(wiring.revision, wiring.fragments.items())?;
        Ok(())
    }

    fn add_wires(&mut self, revision: RevisionId, wires: &[Wire]) -> Result<(), AllocError>
        ensures added { OnOk result (AddsWirings self.old self.new
            (record { revision = revision; wires = wires.now; fragments = [] } ∷ [])) }
    {
        for wire in wires {
            self.add_wire(revision, wire)?;
        }
        Ok(())
    }

    fn add_fragments(
        &mut self,
        host: RevisionId,
        fragments: &[RevisionId],
    ) -> Result<(), AllocError>
        ensures added { OnOk result (AddsWirings self.old self.new
            (record { revision = host; wires = []; fragments = fragments.now } ∷ [])) }
    {
        for fragment in fragments {
            self.attach(host, *fragment)?;
        }
        Ok(())
    }
}
