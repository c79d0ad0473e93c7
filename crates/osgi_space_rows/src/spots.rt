//! Rows in the order in which they were added, found by a revision and a name, and by a revision.

ghost use Rattle.std.specs.Prelude.{◌≡◌, ℕ, ◌==◌, ◌&&◌, List, [], ◌∷◌, ◌++◌, filter, OnOk, OnErr};
ghost use Rattle.std.specs.Option.{option_to_list};

use crate::name_groups::NameGroups;
use crate::table::{Keyed, Table};
use std::alloc::{AllocError, Global};
use std::marker::Model;

/// A row with the number of a name besides that of its revision.
pub trait Spotted: Keyed {
    ghost name_of: { Self → ℕ };

    fn name(&self) -> u32
        ensures { result ≡ name_of self.now };
}

/// Rows with their groups by revision, and by revision and name. Contracts see the list of the rows.
pub struct Spots<V: Spotted> {
    rows: Table<V>,
    groups: NameGroups<V>,
}

/// Not derived, so that each exit at which one is dropped is a single call, which is cheap to prove.
impl<V: Spotted + Drop> Drop for Spots<V> {
    fn drop(self) {
        let Spots { rows: _, groups: _ } = self;
    }
}

impl<V: Spotted> Model for Spots<V> {
    ghost use Rattle.std.specs.Prelude.{List};
    ghost use Rattle.osgi_space_rows.specs.computed.NameGroups.{AreGroupsOf};

    ghost Value = { List V };

    ghost view = { λ t. t.rows };

    ghost invariant = { λ t. AreGroupsOf V.number_of V.name_of t.groups t.rows };
}

impl<V: Spotted> Spots<V> {
    pub fn new(alloc: Global) -> Spots<V>
        ensures empty { result ≡ [] }
    {
        Spots {
            rows: Table::new(alloc),
            groups: NameGroups::new(alloc),
        }
    }

    /// The rows, in the order in which they were added.
    pub fn all(&self) -> &[V]
        ensures rows { result.now ≡ self.now }
    {
        self.rows.all()
    }

    /// The rows of the revision and the name.
    pub fn of(&self, revision: u32, name: u32) -> &[V]
        ensures rows { result.now ≡ filter
            (λ row. (V.number_of row == revision) && (V.name_of row == name)) self.now }
    {
        self.groups.of(revision, name)
    }

    /// The rows of the revision.
    pub fn of_revision(&self, revision: u32) -> &[V]
        ensures rows { result.now ≡ filter (λ row. V.number_of row == revision) self.now }
    {
        self.rows.of(revision)
    }

    /// Adds a row. If memory runs out, the rows stay as they were.
    pub fn push(&mut self, row: V) -> Result<(), AllocError>
        ensures added { OnOk result (self.new ≡ self.old ++ row ∷ []) }
        ensures unchanged { OnErr result (self.new ≡ self.old) }
    {
        let (revision, name) = (row.number(), row.name());
        self.groups.push(revision, name, row)?;
        if let Err(error) = self.rows.push(row) {
            self.groups.pop(revision, name);
            return Err(error);
        }
        Ok(())
    }

    /// Takes off the row that was added last, and returns it. It takes no memory.
    pub fn pop(&mut self) -> Option<V>
        ensures taken { (rest : List V) (row : V) → self.old ≡ rest ++ row ∷ [] → self.new ≡ rest }
        ensures last { self.old ≡ self.new ++ option_to_list result }
    {
        let row = self.rows.pop()?;
        self.groups.pop(row.number(), row.name());
        Some(row)
    }
}
