//! Values by a key, found without a scan.

ghost use Rattle.std.specs.Prelude.{◌≡◌, [], OnOk, OnErr};
ghost use Rattle.osgi_space_rows.specs.computed.Groups.{Adds, HoldsSame, TakesLast, values_of};

use std::alloc::{AllocError, Global};
use std::collections::BTreeMap;

/// The values of each key, in the order in which they were added.
#[derive(Drop)]
pub struct Grouped<K: Ord, V> {
    alloc: Global,
    groups: BTreeMap<K, Vec<V>>,
}

impl<K: Ord + Drop, V: Drop> Grouped<K, V> {
    pub fn new(alloc: Global) -> Grouped<K, V>
        ensures empty { (k : K) → values_of K.cmp result k ≡ [] }
    {
        Grouped {
            alloc,
            groups: BTreeMap::new(alloc),
        }
    }

    /// The values of the key.
    pub fn of(&self, key: &K) -> &[V]
        ensures values { result.now ≡ values_of K.cmp self.now key.now }
    {
        match self.groups.get(key) {
            Some(values) => values.as_slice(),
            None => &[],
        }
    }

    /// Adds a value to those of the key. If memory runs out, each key keeps its values.
    pub fn push(&mut self, key: K, value: V) -> Result<(), AllocError>
        ensures added { OnOk result (Adds K.cmp self.old self.new key value) }
        ensures unchanged { OnErr result (HoldsSame K.cmp self.old self.new) }
    {
        if let Some(values) = self.groups.get_mut(&key) {
            values.push(value)?;
            return Ok(());
        }
        let mut values = Vec::with_capacity(self.alloc, 1)?;
        values.push(value)?;
        self.groups.insert(key, values)?;
        Ok(())
    }

    /// Takes off the last value of the key, if it has one.
    pub fn pop(&mut self, key: &K)
        ensures taken { TakesLast K.cmp self.old self.new key.now }
    {
        if let Some(values) = self.groups.get_mut(key) {
            values.pop();
        }
    }
}
