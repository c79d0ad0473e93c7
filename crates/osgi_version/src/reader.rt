//! Machines that read byte by byte without memory, and where they stop.

ghost use Rattle.std.specs.Prelude.{◌≡◌, ◌+◌, ◌<◌, ◌≤◌, ℕ, Bool, List, Option, Some, None, IfSome, length, take, slice_index};
ghost use Rattle.osgi_version.specs.computed.Run.{run, advance};

/// What was read of a text, as a state that steps from byte to byte. It holds numbers and counts alone, so it is `Copy`.
pub trait Reader: Copy {
    ghost start: { Self };

    /// The state after one byte more, unless no text goes on so.
    ghost step: { Self → ℕ → Option Self };

    /// What was read keeps the limits of the grammar, as the size of a number.
    ghost is_fine: { Self → Bool };

    /// A text may end here.
    ghost may_end: { Self → Bool };

    /// A bound of the numbers in a state that count bytes.
    ghost held: { Self → ℕ };

    /// The texts of the grammar.
    ghost spelled: { List ℕ → Type 0 };

    /// Those that keep the limits.
    ghost readable: { List ℕ → Type 0 };

    fn start() -> Self
        ensures first { result ≡ start }
        ensures held { held result ≡ 0 };

    fn step(self, b: u8) -> Option<Self>
        requires room { held self < usize.MAX }
        ensures next { result ≡ step self b }
        ensures held { IfSome result (λ t. held t ≤ held self + 1) };

    fn is_fine(self) -> bool
        ensures fine { result ≡ is_fine self };

    fn may_end(self) -> bool
        ensures end { result ≡ may_end self };
}

/// A step that does not leave the limits of the grammar where `strict`.
#[inline(always)]
fn advance<M: Reader>(strict: bool, state: M, b: u8) -> Option<M>
    requires room { M.held state < usize.MAX }
    ensures next { result ≡ advance M.is_fine M.step strict state b }
    ensures held { IfSome result (λ t. M.held t ≤ M.held state + 1) }
{
    let after = state.step(b)?;
    if strict && !after.is_fine() {
        return None;
    }
    Some(after)
}

/// The state where reading stops, and how many bytes were read.
pub fn scan<M: Reader>(strict: bool, bytes: &[u8]) -> (M, usize)
    ensures within { result.1 ≤ length bytes.now }
    ensures prefix { run (advance M.is_fine M.step strict) M.start (take result.1 bytes.now) ≡ Some result.0 }
    ensures stop { result.1 < length bytes.now → advance M.is_fine M.step strict result.0 (slice_index bytes.now result.1) ≡ None }
    ensures held { M.held result.0 ≤ result.1 }
{
    let mut state = M::start();
    for (at, b) in bytes.iter().enumerate() {
        match advance(strict, state, *b) {
            Some(after) => state = after,
            None => return (state, at),
        }
    }
    (state, bytes.len())
}
