//! Values by numbers, most of which are small.

ghost use Rattle.std.specs.Prelude.{◌≡◌, ℕ, ◌<◌, length, None, OnOk, OnErr, option_copied};
ghost use Rattle.std.specs.Option.{option_copied_mut};
ghost use Rattle.std.specs.Borrow.{sem};
ghost use Rattle.osgi_base.specs.NumberMaps.{HoldsSame, LendsValue, Puts, value_at};

use std::alloc::{AllocError, Global};
use std::collections::BTreeMap;

/// Numbers below this one stand at places of their own.
const LOW: u32 = 65_536;

/// A value for each of some numbers. A small number's stands at its own place, so that finding it takes the same time however
/// many there are; others stand in order.
pub struct NumberMap<T> {
    low: Vec<Option<T>>,
    high: BTreeMap<u32, T>,
}

/// Not derived, so that each exit at which one is dropped is a single call, which is cheap to prove.
impl<T: Drop> Drop for NumberMap<T> {
    fn drop(self) {
        let NumberMap { low: _, high: _ } = self;
    }
}

impl<T: Drop> NumberMap<T> {
    pub fn new(alloc: Global) -> NumberMap<T>
        ensures empty { (number : ℕ) → value_at result number ≡ None }
    {
        NumberMap {
            low: Vec::new(alloc),
            high: BTreeMap::new(alloc),
        }
    }

    /// The number's value, if it has one.
    pub fn get(&self, number: u32) -> Option<&T>
        ensures value { option_copied result ≡ value_at self.now number }
    {
        if number < LOW {
            return self.low.get(number as usize)?.as_ref();
        }
        self.high.get(&number)
    }

    /// The number's value for writing, if it has one.
    pub fn get_mut(&mut self, number: u32) -> Option<&mut T>
        ensures* writes_back { sem 𝓛 (LendsValue T.row self.entry number result) }
        ensures value { option_copied_mut result ≡ value_at self.old number }
    {
        if number >= LOW {
            return self.high.get_mut(&number);
        }
        if number as usize >= self.low.len() {
            return None;
        }
        self.low[number as usize].as_mut()
    }

    /// Gives the number this value, in place of one that it has. If memory runs out, each number keeps its value.
    pub fn insert(&mut self, number: u32, value: T) -> Result<(), AllocError>
        ensures put { OnOk result (Puts self.old self.new number value) }
        ensures unchanged { OnErr result (HoldsSame self.old self.new) }
    {
        if number >= LOW {
            self.high.insert(number, value)?;
            return Ok(());
        }
        self.reach(number)?;
        self.low[number as usize] = Some(value);
        Ok(())
    }

    /// Makes a place for the small number, which has no value yet if the place is new.
    fn reach(&mut self, number: u32) -> Result<(), AllocError>
        ensures reached { OnOk result (number < length self.new.low.items) }
        ensures unchanged { HoldsSame self.old self.new }
    {
        while self.low.len() <= number as usize {
            self.low.push(None)?;
        }
        Ok(())
    }
}
