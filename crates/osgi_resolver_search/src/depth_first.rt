//! The search, depth first.

ghost use Rattle.std.specs.Prelude.{◌≡◌, ◌+◌, ◌-◌, ◌^◌, ◌<◌, ◌≤◌, ℕ, List, [], IfOk, OnOk, MatchOption};
ghost use Rattle.osgi_world.specs.Candidates.{IsProblem};
ghost use Rattle.osgi_world.specs.ChoiceWords.{IsComplete, IsGood, IsWord};
ghost use Rattle.osgi_world.specs.Effort.{IsEffort};
ghost use Rattle.osgi_world.specs.Hopeless.{IsHopeless};
ghost use Rattle.osgi_resolver_theory.specs.Search.{IsAt};
ghost use Rattle.osgi_resolver_search.specs.Outcomes.{IsOutcome};

use crate::pace::Pace;
use crate::steps::advance;
use crate::strides::leap;
use crate::walker::Walker;
use std::alloc::AllocError;

/// How a search ends.
#[derive(Clone, Copy, PartialEq, Eq)]
pub enum Outcome {
    Found,
    NoWord,
    Spent { visited: u64 },
}

/// Goes on by at most this many words that are not hopeless. Gives by how many; None where no good word is ahead.
fn go_on<W: Walker>(walker: &mut W, most: u64) -> Result<Option<u64>, AllocError>
    requires problem { IsProblem (W.problem walker.old) }
    requires word { IsWord (W.problem walker.old) (W.word walker.old) }
    requires hopeful { ¬ IsHopeless (W.problem walker.old) (W.word walker.old) }
    requires most { 0 < most }
    ensures problem { OnOk result (W.problem walker.new ≡ W.problem walker.old) }
    ensures most { IfOk result (λ visited. MatchOption visited (Unit {0})
        (λ k. (0 < k) × (k ≤ most))) }
    ensures word { IfOk result (λ visited. (n : ℕ)
        → IsAt (W.problem walker.old) (W.word walker.old) n
        → ¬ IsComplete (W.problem walker.old) (W.word walker.old)
        → MatchOption visited
        (((w : List ℕ) → ¬ IsGood (W.problem walker.old) w)
        × IsEffort (W.problem walker.old) (n + 1))
        (λ k. IsAt (W.problem walker.old) (W.word walker.new) (n + k))) }
{
    let made = leap(walker, most)?;
    if made > 0 {
        return Ok(Some(made));
    }
    if advance(walker)? {
        Ok(Some(1))
    } else {
        Ok(None)
    }
}

/// Searches from the empty word. Where it finds the first good word, the walker stands there.
pub fn search<W: Walker>(walker: &mut W, budget: u64) -> Result<Outcome, AllocError>
    requires problem { IsProblem (W.problem walker.old) }
    requires empty { W.word walker.old ≡ [] }
    requires budget { budget < 2 ^ 64 - 1 }
    ensures problem { OnOk result (W.problem walker.new ≡ W.problem walker.old) }
    ensures outcome { IfOk result (λ outcome.
        IsOutcome (W.problem walker.old) budget (W.word walker.new) outcome) }
{
    if walker.is_hopeless()? {
        return Ok(Outcome::NoWord);
    }
    let mut visited = 0;
    let mut pace = Pace::new();
    while visited < budget {
        if walker.is_complete() {
            return Ok(Outcome::Found);
        }
        match go_on(walker, pace.most().min(budget - visited))? {
            None => return Ok(Outcome::NoWord),
            Some(gone) => {
                pace = pace.after(gone);
                visited += gone;
            }
        }
    }
    if walker.is_complete() {
        return Ok(Outcome::Found);
    }
    Ok(Outcome::Spent {
        visited: budget + 1,
    })
}
