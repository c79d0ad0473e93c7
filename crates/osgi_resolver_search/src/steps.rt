//! From one word that is not hopeless to the next, value by value.

ghost use Rattle.std.specs.Prelude.{◌≡◌, ◌+◌, ◌<◌, ℕ, List, IfOk, OnOk, MatchBool};
ghost use Rattle.osgi_world.specs.Candidates.{IsProblem};
ghost use Rattle.osgi_world.specs.ChoiceWords.{IsGood, IsWord};
ghost use Rattle.osgi_world.specs.Effort.{IsEffort};
ghost use Rattle.osgi_world.specs.Hopeless.{IsHopeless};
ghost use Rattle.osgi_resolver_theory.specs.Search.{HasTried, IsAt};

use crate::walker::Walker;
use std::alloc::AllocError;

/// Goes on to the next word that is not hopeless; false where there is none.
pub fn advance<W: Walker>(walker: &mut W) -> Result<bool, AllocError>
    requires problem { IsProblem (W.problem walker.old) }
    requires word { IsWord (W.problem walker.old) (W.word walker.old) }
    requires hopeful { ¬ IsHopeless (W.problem walker.old) (W.word walker.old) }
    ensures problem { OnOk result (W.problem walker.new ≡ W.problem walker.old) }
    ensures word { IfOk result (λ more. (n : ℕ)
        → HasTried (W.problem walker.old) (W.word walker.old) 0 n
        → MatchBool more
        (IsAt (W.problem walker.old) (W.word walker.new) n)
        (((w : List ℕ) → ¬ IsGood (W.problem walker.old) w)
        × IsEffort (W.problem walker.old) n)) }
{
    let mut values = walker.values();
    let mut value = walker.next_value(0);
    loop {
        if value < values {
            walker.longer(value)?;
            if !walker.has_become_hopeless()? {
                return Ok(true);
            }
            walker.shorter();
            value = walker.next_value(value + 1);
        } else {
            match walker.shorter() {
                None => return Ok(false),
                Some(last) => {
                    values = walker.values();
                    value = walker.next_value(last + 1);
                }
            }
        }
    }
}
