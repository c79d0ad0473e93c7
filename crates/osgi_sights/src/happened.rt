//! What happened at an entry.

ghost use Rattle.std.specs.Prelude.{◌≡◌, ◌≤◌, [], ◌∷◌, ◌++◌, length, map, OnOk, OnErr};
ghost use Rattle.osgi_listeners.specs.declared.sight.TheConstants.{ENTRY_PLACES};
ghost use Rattle.osgi_sights.specs.Shown.{shown};

use crate::happening::Happening;
use osgi_listeners::ENTRY_PLACES;
use std::alloc::{AllocError, Global};
use std::marker::Model;

/// The happenings of an entry, in order. There are no more of them than an entry has places in the history.
#[derive(Drop)]
pub struct Happened<'a> {
    list: Vec<Happening<'a>>,
}

impl<'a> Model for Happened<'a> {
    ghost use Rattle.std.specs.Prelude.{◌≤◌, List, length, map};
    ghost use Rattle.std.specs.Coded.{codes};
    ghost use Rattle.osgi_listeners.specs.declared.sight.TheConstants.{ENTRY_PLACES};
    ghost use Rattle.osgi_model.specs.contracts.value.Value as value;
    ghost use Rattle.osgi_sights.specs.Shown.{shown, Shown};

    ghost Value = { List Shown };

    ghost coded = { Prim.hlevel (codes, value.the_row.coded) };

    ghost view = { λ h. map shown h.list.items };

    ghost invariant = { λ h. length h.list.items ≤ ENTRY_PLACES };
}

impl<'a> Happened<'a> {
    /// Nothing happened.
    pub fn new(alloc: Global) -> Happened<'a>
        ensures nothing { result ≡ [] }
    {
        Happened {
            list: Vec::new(alloc),
        }
    }

    /// Adds what happened next. Where memory runs out nothing has changed, and so where all places are taken: the list cannot grow.
    pub fn push(&mut self, happening: Happening<'a>) -> Result<(), AllocError>
        ensures added { OnOk result (self.new ≡ self.old ++ shown happening.entry ∷ []) }
        ensures unchanged { OnErr result (self.new ≡ self.old) }
    {
        if self.list.len() as u64 >= ENTRY_PLACES {
            return Err(AllocError);
        }
        self.list.push(happening)?;
        Ok(())
    }

    /// The happenings, in order.
    pub(crate) fn items(&self) -> &[Happening<'a>]
        ensures shown { map shown result.now ≡ self.now }
        ensures few { length result.now ≤ ENTRY_PLACES }
    {
        self.list.as_slice()
    }
}
