//! Several decisions at once, each with its first value.

ghost use Rattle.std.specs.Prelude.{◌≡◌, ◌+◌, ◌<◌, ◌≤◌, ℕ, List, ◌++◌, replicate, IfOk, OnOk};
ghost use Rattle.osgi_world.specs.ChoiceWords.{IsWord};
ghost use Rattle.osgi_world.specs.Hopeless.{IsHopeless};

use crate::walker::Walker;
use std::alloc::AllocError;

/// Makes as many decisions with their first value as there are, at most this many. Gives how many.
fn make_first<W: Walker>(walker: &mut W, most: u64) -> Result<u64, AllocError>
    requires word { IsWord (W.problem walker.old) (W.word walker.old) }
    ensures problem { OnOk result (W.problem walker.new ≡ W.problem walker.old) }
    ensures most { IfOk result (λ made. made ≤ most) }
    ensures first { IfOk result (λ made.
        W.word walker.new ≡ W.word walker.old ++ replicate made 0) }
    ensures word { OnOk result (IsWord (W.problem walker.old) (W.word walker.new)) }
{
    for made in 0..most {
        if walker.values() == 0 {
            return Ok(made);
        }
        walker.longer(0)?;
    }
    Ok(most)
}

/// Takes this many decisions back.
fn take_back<W: Walker>(walker: &mut W, count: u64)
    ensures problem { W.problem walker.new ≡ W.problem walker.old }
    ensures word { (w : List ℕ) (kept : ℕ) → W.word walker.old ≡ w ++ replicate (kept + count) 0
        → W.word walker.new ≡ w ++ replicate kept 0 }
{
    for _ in 0..count {
        walker.shorter();
    }
}

/// Makes several decisions with their first value, at most this many, and takes them back by halves while the word is hopeless.
/// Gives how many are left, and 0 where a single one would be.
pub fn leap<W: Walker>(walker: &mut W, most: u64) -> Result<u64, AllocError>
    requires word { IsWord (W.problem walker.old) (W.word walker.old) }
    ensures problem { OnOk result (W.problem walker.new ≡ W.problem walker.old) }
    ensures most { IfOk result (λ made. made ≤ most) }
    ensures first { IfOk result (λ made.
        W.word walker.new ≡ W.word walker.old ++ replicate made 0) }
    ensures word { OnOk result (IsWord (W.problem walker.old) (W.word walker.new)) }
    ensures hopeful { IfOk result (λ made. 0 < made
        → ¬ IsHopeless (W.problem walker.old) (W.word walker.new)) }
{
    if most < 2 {
        return Ok(0);
    }
    let mut made = make_first(walker, most)?;
    while made > 1 {
        if !walker.is_hopeless()? {
            return Ok(made);
        }
        let kept = made / 2;
        take_back(walker, made - kept);
        made = kept;
    }
    take_back(walker, made);
    Ok(0)
}
