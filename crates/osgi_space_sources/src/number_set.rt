//! Sets of numbers, most of which are small.

ghost use Rattle.std.specs.Prelude.{◌≡◌, ◌↔◌, ◌⊎◌, ℕ, IsTrue, OnErr, OnOk};
ghost use Rattle.osgi_space_sources.specs.computed.Marks.{IsMarked};

use osgi_base::NumberMap;
use std::alloc::{AllocError, Global};

/// Numbers that were put in. Whether a small one was takes the same time however many there are.
#[derive(Drop)]
pub struct NumberSet {
    marks: NumberMap<bool>,
}

impl NumberSet {
    pub fn new(alloc: Global) -> NumberSet
        ensures empty { (n : ℕ) → ¬ IsMarked result n }
    {
        NumberSet {
            marks: NumberMap::new(alloc),
        }
    }

    pub fn has(&self, number: u32) -> bool
        ensures has { IsTrue result ↔ IsMarked self.now number }
    {
        match self.marks.get(number) {
            Some(mark) => *mark,
            None => false,
        }
    }

    /// Puts the number in. If memory runs out, the set stays as it was.
    pub fn insert(&mut self, number: u32) -> Result<(), AllocError>
        ensures put { OnOk result ((n : ℕ) → IsMarked self.new n
            ↔ (IsMarked self.old n ⊎ (number ≡ n))) }
        ensures unchanged { OnErr result ((n : ℕ) → IsMarked self.new n ↔ IsMarked self.old n) }
    {
        self.marks.insert(number, true)
    }
}
