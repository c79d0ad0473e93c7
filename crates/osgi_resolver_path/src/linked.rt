//! The wirings of a search, with those that are wired to each revision.

ghost use Rattle.std.specs.Prelude.{◌≡◌, ◌<◌, ◌∷◌, [], List, OnOk, OnErr, length};
ghost use Rattle.osgi_resolver_path.specs.computed.Links.{TakesOff, holders_of};
ghost use Rattle.osgi_space_rows.specs.Worlds.{AreRowsIn};
ghost use Rattle.osgi_uses.specs.States.{wirings_of};
ghost use Rattle.osgi_world.specs.Decisions.{Step, attached, wired};

use osgi_base::RevisionId;
use osgi_space::DisputedRows;
use osgi_space_rows::{Grouped, WorldRows};
use osgi_uses::Spaces;
use osgi_world::{Wire, World};
use std::alloc::{AllocError, Global};
use std::marker::Model;

/// The wirings of a world, to which a search adds wires and fragments, and takes back what it added last; and of the wires that
/// were added those to each provider, found by its number. Contracts see the wirings.
pub struct Linked<'w> {
    spaces: Spaces<'w>,
    holders: Grouped<u32, u32>,
    /// Of each addition the provider, if it is a wire.
    trail: Vec<Option<u32>>,
}

/// Not derived, so that each exit at which one is dropped is a single call, which is cheap to prove.
impl Drop for Linked<'_> {
    fn drop(self) {
        let Linked {
            spaces: _,
            holders: _,
            trail: _,
        } = self;
    }
}

impl<'w> Model for Linked<'w> {
    ghost use Rattle.std.specs.Coded.{codes};
    ghost use Rattle.osgi_model.specs.contracts.filter.Filter as filter;
    ghost use Rattle.osgi_model.specs.contracts.value.Value as value;
    ghost use Rattle.osgi_resolver_path.specs.computed.Links.{AreLinks};
    ghost use Rattle.osgi_uses.specs.States.{SpacesState};

    ghost Value = { SpacesState };

    ghost coded = { Prim.hlevel (codes, filter.the_row.coded, value.the_row.coded) };

    ghost view = { λ l. l.spaces };

    ghost invariant = { λ l. AreLinks l.holders l.trail.items l.spaces.steps };
}

impl<'w> Linked<'w> {
    /// The wirings of the world, whose rows these are.
    pub fn over(alloc: Global, world: &'w World, rows: DisputedRows<'w>) -> Linked<'w>
        requires known { rows.known ≡ world.now.known }
        requires rows { AreRowsIn rows world.now.wirings }
        ensures world { result
            ≡ record { known = world.now.known; wirings = world.now.wirings; steps = [] } }
    {
        Linked {
            spaces: Spaces::over(alloc, world, rows),
            holders: Grouped::new(alloc),
            trail: Vec::new(alloc),
        }
    }

    /// The rows of the world: all that was added is taken back. It takes no memory.
    pub fn into_rows(self) -> DisputedRows<'w>
        ensures known { result.known ≡ self.entry.known }
        ensures rows { AreRowsIn result self.entry.wirings }
    {
        let Linked {
            spaces,
            holders: _,
            trail: _,
        } = self;
        spaces.into_rows()
    }

    /// The rows of the wirings as they are now.
    pub fn rows(&self) -> &WorldRows<'w>
        ensures known { result.now.known ≡ self.now.known }
        ensures rows { AreRowsIn result.now (wirings_of self.now) }
    {
        self.spaces.rows()
    }

    /// The same rows, with the packages that may have more than one source in them.
    pub fn disputed_rows(&self) -> &DisputedRows<'w>
        ensures known { result.now.known ≡ self.now.known }
        ensures rows { AreRowsIn result.now (wirings_of self.now) }
    {
        self.spaces.disputed_rows()
    }

    /// The revisions whose added wires go to this one, each once for each such wire.
    pub fn wired_to(&self, provider: RevisionId) -> &[u32]
        ensures wired { result.now ≡ holders_of provider.0 self.now.steps }
    {
        self.holders.of(&provider.0)
    }

    /// Attaches the fragment to the host. If memory runs out, nothing changes.
    pub fn attach(&mut self, host: RevisionId, fragment: RevisionId) -> Result<(), AllocError>
        ensures added { OnOk result (self.new
            ≡ record self.old { steps = attached host fragment ∷ self.old.steps }) }
        ensures unchanged { OnErr result (self.new ≡ self.old) }
    {
        self.trail.reserve(1)?;
        self.spaces.attach(host, fragment)?;
        self.trail.push_reserved(None);
        Ok(())
    }

    /// Adds the wire to the revision. If memory runs out, nothing changes.
    pub fn wire(&mut self, revision: RevisionId, wire: Wire) -> Result<(), AllocError>
        ensures added { OnOk result (self.new
            ≡ record self.old { steps = wired revision wire ∷ self.old.steps }) }
        ensures unchanged { OnErr result (self.new ≡ self.old) }
    {
        let provider = wire.capability.provider.0;
        self.trail.reserve(1)?;
        self.holders.push(provider, revision.0)?;
        if let Err(error) = self.spaces.wire(revision, wire) {
            self.holders.pop(&provider);
            return Err(error);
        }
        self.trail.push_reserved(Some(provider));
        Ok(())
    }

    /// Takes back what was added last. It takes no memory.
    pub fn undo(&mut self)
        requires step { 0 < length self.old.steps }
        ensures undone { (s : Step) (steps : List Step) → self.old.steps ≡ s ∷ steps
            → self.new ≡ record self.old { steps = steps } }
    {
        self.spaces.undo();
        let provider = self.trail.pop().unwrap();
        take_off(&mut self.holders, provider);
    }
}

/// Takes off the last of those that are wired to the provider, if there is one.
fn take_off(holders: &mut Grouped<u32, u32>, provider: Option<u32>)
    ensures taken { TakesOff holders.old holders.new provider }
{
    if let Some(provider) = provider {
        holders.pop(&provider);
    }
}
