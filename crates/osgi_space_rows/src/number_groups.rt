//! Values by a number. Under a small number they are found in the same time however many there are.

ghost use Rattle.std.specs.Prelude.{◌≡◌, ℕ, [], OnOk, OnErr};
ghost use Rattle.osgi_space_rows.specs.computed.NumberGroups.{Adds, HoldsSame, TakesLast, values_at};

use osgi_base::NumberMap;
use std::alloc::{AllocError, Global};

/// The values of each number, in the order in which they were added.
#[derive(Drop)]
pub struct NumberGroups<V> {
    alloc: Global,
    groups: NumberMap<Vec<V>>,
}

impl<V: Drop> NumberGroups<V> {
    pub fn new(alloc: Global) -> NumberGroups<V>
        ensures empty { (n : ℕ) → values_at result n ≡ [] }
    {
        NumberGroups {
            alloc,
            groups: NumberMap::new(alloc),
        }
    }

    /// The values of the number.
    pub fn of(&self, number: u32) -> &[V]
        ensures values { result.now ≡ values_at self.now number }
    {
        match self.groups.get(number) {
            Some(values) => values.as_slice(),
            None => &[],
        }
    }

    /// Adds a value to those of the number. If memory runs out, each number keeps its values.
    pub fn push(&mut self, number: u32, value: V) -> Result<(), AllocError>
        ensures added { OnOk result (Adds self.old self.new number value) }
        ensures unchanged { OnErr result (HoldsSame self.old self.new) }
    {
        if let Some(values) = self.groups.get_mut(number) {
            values.push(value)?;
            return Ok(());
        }
        let mut values = Vec::with_capacity(self.alloc, 1)?;
        values.push(value)?;
        self.groups.insert(number, values)?;
        Ok(())
    }

    /// Takes off the last value of the number, if it has one. It takes no memory.
    pub fn pop(&mut self, number: u32)
        ensures taken { TakesLast self.old self.new number }
    {
        if let Some(values) = self.groups.get_mut(number) {
            values.pop();
        }
    }
}
