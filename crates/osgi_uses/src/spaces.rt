//! The wirings of a search.

ghost use Rattle.std.specs.Prelude.{◌≡◌, ◌<◌, ◌++◌, ◌∷◌, [], List, IfOk, OnOk, OnErr, length};
ghost use Rattle.osgi_world.specs.Decisions.{Step, attached, wired};
ghost use Rattle.osgi_space_rows.specs.Rows.{RowLists};
ghost use Rattle.osgi_space_rows.specs.Worlds.{AreRowsIn, TakesBack, with_added};
ghost use Rattle.osgi_uses.specs.Clashes.{IsClashAmong};
ghost use Rattle.osgi_uses.specs.States.{SpacesState, wirings_of};

use crate::clash::Clash;
use crate::trail::{Addition, Taken};
use osgi_base::RevisionId;
use osgi_space::{DisputedRows, first_violation, sources_in};
use osgi_space_rows::WorldRows;
use osgi_world::{Wire, World};
use std::alloc::{AllocError, Global};
use std::marker::Model;

/// The wirings of a world, to which wires and fragments are added one by one, and taken back, those that were added last first.
#[derive(Drop)]
pub struct Spaces<'w> {
    world: &'w World,
    rows: DisputedRows<'w>,
    trail: Vec<Taken>,
}

impl<'w> Model for Spaces<'w> {
    ghost use Rattle.std.specs.Prelude.{map, reverse};
    ghost use Rattle.std.specs.Coded.{codes};
    ghost use Rattle.osgi_model.specs.contracts.filter.Filter as filter;
    ghost use Rattle.osgi_model.specs.contracts.value.Value as value;
    ghost use Rattle.osgi_uses.specs.States.{SpacesState};
    ghost use Rattle.osgi_uses.specs.computed.Trail.{IsTrailOf, step_of};

    ghost Value = { SpacesState };

    ghost coded = { Prim.hlevel (codes, filter.the_row.coded, value.the_row.coded) };

    ghost view = { λ s. record {
      known = s.world.now.known;
      wirings = s.world.now.wirings;
      steps = map step_of (reverse s.trail.items);
    } };

    ghost invariant = { λ s. IsTrailOf s.world.now s.rows (reverse s.trail.items) };
}

impl<'w> Spaces<'w> {
    /// The wirings of the world.
    pub fn new(alloc: Global, world: &'w World) -> Result<Spaces<'w>, AllocError>
        ensures world { IfOk result (λ made.
            made ≡ record { known = world.now.known; wirings = world.now.wirings; steps = [] }) }
    {
        let rows = DisputedRows::new(alloc, world.known.items(), world.wirings.items())?;
        Ok(Spaces::over(alloc, world, rows))
    }

    /// The wirings of the world, whose rows these are.
    pub fn over(alloc: Global, world: &'w World, rows: DisputedRows<'w>) -> Spaces<'w>
        requires known { rows.known ≡ world.now.known }
        requires rows { AreRowsIn rows world.now.wirings }
        ensures world { result
            ≡ record { known = world.now.known; wirings = world.now.wirings; steps = [] } }
    {
        Spaces {
            world,
            rows,
            trail: Vec::new(alloc),
        }
    }

    /// The rows of the world: all that was added is taken back. It takes no memory.
    pub fn into_rows(self) -> DisputedRows<'w>
        ensures known { result.known ≡ self.entry.known }
        ensures rows { AreRowsIn result self.entry.wirings }
    {
        let mut rest = self;
        for _ in 0..rest.trail.len() {
            rest.undo();
        }
        let Spaces { rows, .. } = rest;
        rows
    }

    /// The rows of the wirings as they are now.
    pub fn rows(&self) -> &WorldRows<'w>
        ensures known { result.now.known ≡ self.now.known }
        ensures rows { AreRowsIn result.now (wirings_of self.now) }
    {
        self.disputed_rows().world_rows()
    }

    /// The same rows, with the packages that may have more than one source in them.
    pub fn disputed_rows(&self) -> &DisputedRows<'w>
        ensures known { result.now.known ≡ self.now.known }
        ensures rows { AreRowsIn result.now (wirings_of self.now) }
    {
        &self.rows
    }

    /// Attaches the fragment to the host. If memory runs out, nothing changes.
    pub fn attach(&mut self, host: RevisionId, fragment: RevisionId) -> Result<(), AllocError>
        ensures added { OnOk result (self.new
            ≡ record self.old { steps = attached host fragment ∷ self.old.steps }) }
        ensures unchanged { OnErr result (self.new ≡ self.old) }
    {
        let added = self.rows.attach(host, fragment)?;
        let taken = Taken {
            addition: Addition::Attached(host, fragment),
            added,
        };
        keep(&mut self.rows, &mut self.trail, taken)?;
        Ok(())
    }

    /// Adds the wire to the revision. If memory runs out, nothing changes.
    pub fn wire(&mut self, revision: RevisionId, wire: Wire) -> Result<(), AllocError>
        ensures added { OnOk result (self.new
            ≡ record self.old { steps = wired revision wire ∷ self.old.steps }) }
        ensures unchanged { OnErr result (self.new ≡ self.old) }
    {
        let added = self.rows.add_wire(revision, &wire)?;
        let taken = Taken {
            addition: Addition::Wired(revision, wire),
            added,
        };
        keep(&mut self.rows, &mut self.trail, taken)?;
        Ok(())
    }

    /// Takes back what was added last. It takes no memory.
    pub fn undo(&mut self)
        requires step { 0 < length self.old.steps }
        ensures undone { (s : Step) (steps : List Step) → self.old.steps ≡ s ∷ steps
            → self.new ≡ record self.old { steps = steps } }
    {
        let last = self.trail.pop().unwrap();
        self.rows.take_back(last.added);
    }

    /// The first violated clause of `uses` among the settled revisions, with the sources that differ.
    pub fn clash(&self, alloc: Global, settled: &[RevisionId]) -> Result<Option<Clash>, AllocError>
        ensures first { IfOk result (λ found. IsClashAmong self.now settled.now found) }
    {
        let rows = self.rows();
        let Some(first) = first_violation(alloc, rows, settled)? else {
            return Ok(None);
        };
        let ours = sources_in(alloc, rows, first.revision, &first.package)?;
        let theirs = sources_in(alloc, rows, first.seen_by, &first.package)?;
        Ok(Some(Clash {
            revision: first.revision,
            package: first.package,
            ours,
            theirs,
        }))
    }
}

/// Puts on the trail what was added to the rows, or takes it back from them if memory runs out.
fn keep(rows: &mut DisputedRows, trail: &mut Vec<Taken>, taken: Taken) -> Result<(), AllocError>
    requires last { (R : RowLists) × (rows.old.rows ≡ with_added R taken.added) }
    ensures rows { OnOk result (rows.new ≡ rows.old) }
    ensures trail { OnOk result (trail.new.items ≡ trail.old.items ++ taken ∷ []) }
    ensures taken_back { OnErr result (TakesBack rows.old rows.new taken.added) }
    ensures unchanged { OnErr result (trail.new.items ≡ trail.old.items) }
{
    if trail.push(taken).is_err() {
        rows.take_back(taken.added);
        return Err(AllocError);
    }
    Ok(())
}
