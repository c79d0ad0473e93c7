//! Values by a revision and a name, found among the revision's own.

ghost use Rattle.std.specs.Prelude.{◌≡◌, ℕ, [], OnOk, OnErr};
ghost use Rattle.osgi_space_rows.specs.computed.NameGroups.{Adds, HoldsSame, TakesLast, values_at};

use crate::grouped::Grouped;
use osgi_base::NumberMap;
use std::alloc::{AllocError, Global};

/// The values of each revision and name, by their numbers, in the order in which they were added.
#[derive(Drop)]
pub struct NameGroups<V> {
    alloc: Global,
    revisions: NumberMap<Grouped<u32, V>>,
}

impl<V: Drop> NameGroups<V> {
    pub fn new(alloc: Global) -> NameGroups<V>
        ensures empty { (r n : ℕ) → values_at result r n ≡ [] }
    {
        NameGroups {
            alloc,
            revisions: NumberMap::new(alloc),
        }
    }

    /// The values of the revision and the name.
    pub fn of(&self, revision: u32, name: u32) -> &[V]
        ensures values { result.now ≡ values_at self.now revision name }
    {
        match self.revisions.get(revision) {
            Some(groups) => groups.of(&name),
            None => &[],
        }
    }

    /// Adds a value to those of the revision and the name. If memory runs out, each pair of these keeps its values.
    pub fn push(&mut self, revision: u32, name: u32, value: V) -> Result<(), AllocError>
        ensures added { OnOk result (Adds self.old self.new revision name value) }
        ensures unchanged { OnErr result (HoldsSame self.old self.new) }
    {
        if let Some(groups) = self.revisions.get_mut(revision) {
            return groups.push(name, value);
        }
        let mut groups = Grouped::new(self.alloc);
        groups.push(name, value)?;
        self.revisions.insert(revision, groups)?;
        Ok(())
    }

    /// Takes off the last value of the revision and the name, if they have one. It takes no memory.
    pub fn pop(&mut self, revision: u32, name: u32)
        ensures taken { TakesLast self.old self.new revision name }
    {
        if let Some(groups) = self.revisions.get_mut(revision) {
            groups.pop(&name);
        }
    }
}
