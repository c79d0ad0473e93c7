//! Lists of numbers.

ghost use Rattle.std.specs.Prelude.{◌↔◌, ℕ, Contains};
ghost use Rattle.std.specs.List.Sorted.{IsStrictlyIncreasing};

/// The same numbers, each once and rising.
pub fn rising(mut numbers: Vec<u32>) -> Vec<u32>
    ensures rising { IsStrictlyIncreasing result.items }
    ensures same { (n : ℕ) → Contains result.items n ↔ Contains numbers.items n }
{
    numbers.sort_unstable();
    numbers.dedup();
    numbers
}
