//! A set that is made at once.

ghost use Rattle.std.specs.Prelude.{◌↔◌, IfOk, IsTrue};
ghost use Rattle.osgi_space_rules.specs.computed.Growing.{HasEqual, HaveSame};

use std::alloc::AllocError;
use std::marker::Model;

/// The items of a set, which are given at once and do not change. Contracts see them as a list.
#[derive(Drop)]
pub struct Sorted<T: Ord + Drop> {
    items: Vec<T>,
}

impl<T: Ord + Drop> Model for Sorted<T> {
    ghost use Rattle.std.specs.Prelude.{List};
    ghost use Rattle.std.specs.List.Sorted.{IsSorted};

    ghost Value = { List T };

    ghost view = { λ s. s.items.items };

    ghost invariant = { λ s. IsSorted T.cmp s.items.items };
}

impl<T: Ord + Drop> Sorted<T> {
    /// The set of the items.
    pub fn of(mut items: Vec<T>) -> Result<Sorted<T>, AllocError>
        ensures items { IfOk result (λ made. HaveSame made items.items) }
    {
        items.sort()?;
        Ok(Sorted { items })
    }

    /// Whether the set has an item that is equal to this one.
    pub fn has(&self, item: &T) -> bool
        ensures has { IsTrue result ↔ HasEqual T.cmp self.now item.now }
    {
        self.items.binary_search(item).is_ok()
    }
}
