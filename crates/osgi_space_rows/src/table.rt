//! Rows in the order in which they were added, found by a number.

ghost use Rattle.std.specs.Prelude.{◌≡◌, ℕ, ◌==◌, List, [], ◌∷◌, ◌++◌, filter, OnOk, OnErr};
ghost use Rattle.std.specs.Option.{option_to_list};

use crate::number_groups::NumberGroups;
use std::alloc::{AllocError, Global};
use std::marker::Model;

/// A row with a number.
pub trait Keyed: Copy {
    ghost number_of: { Self → ℕ };

    fn number(&self) -> u32
        ensures { result ≡ number_of self.now };
}

/// Rows with their groups by number. Contracts see the list of the rows.
pub struct Table<V: Keyed> {
    rows: Vec<V>,
    groups: NumberGroups<V>,
}

/// Not derived, so that each exit at which one is dropped is a single call, which is cheap to prove.
impl<V: Keyed + Drop> Drop for Table<V> {
    fn drop(self) {
        let Table { rows: _, groups: _ } = self;
    }
}

impl<V: Keyed> Model for Table<V> {
    ghost use Rattle.std.specs.Prelude.{List};
    ghost use Rattle.osgi_space_rows.specs.computed.NumberGroups.{AreGroupsOf};

    ghost Value = { List V };

    ghost view = { λ t. t.rows.items };

    ghost invariant = { λ t. AreGroupsOf V.number_of t.groups t.rows.items };
}

impl<V: Keyed> Table<V> {
    pub fn new(alloc: Global) -> Table<V>
        ensures empty { result ≡ [] }
    {
        Table {
            rows: Vec::new(alloc),
            groups: NumberGroups::new(alloc),
        }
    }

    /// The rows, in the order in which they were added.
    pub fn all(&self) -> &[V]
        ensures rows { result.now ≡ self.now }
    {
        self.rows.as_slice()
    }

    /// The rows of the number.
    pub fn of(&self, number: u32) -> &[V]
        ensures rows { result.now ≡ filter (λ row. V.number_of row == number) self.now }
    {
        self.groups.of(number)
    }

    /// Adds a row. If memory runs out, the rows stay as they were.
    pub fn push(&mut self, row: V) -> Result<(), AllocError>
        ensures added { OnOk result (self.new ≡ self.old ++ row ∷ []) }
        ensures unchanged { OnErr result (self.new ≡ self.old) }
    {
        self.rows.reserve(1)?;
        self.groups.push(row.number(), row)?;
        self.rows.push(row)?;
        Ok(())
    }

    /// Takes off the row that was added last, and returns it. It takes no memory.
    pub fn pop(&mut self) -> Option<V>
        ensures taken { (rest : List V) (row : V) → self.old ≡ rest ++ row ∷ [] → self.new ≡ rest }
        ensures last { self.old ≡ self.new ++ option_to_list result }
    {
        let row = self.rows.pop()?;
        self.groups.pop(row.number());
        Some(row)
    }
}
