//! What a search over all words sees at one word.

ghost use Rattle.std.specs.Prelude.{◌^◌, ◌-◌, ◌<◌, ◌≤◌, [], ◌∷◌, ◌++◌, IfOk};
ghost use Rattle.osgi_world.specs.Candidates.{IsProblem};
ghost use Rattle.osgi_world.specs.ChoiceWords.{IsWord};
ghost use Rattle.cases_slow_search.specs.Seen.{HasPassed, IsSeen};

use osgi_resolver_search::{Outcome, Walker};
use std::alloc::AllocError;

/// What is known when some words were looked at.
pub enum Seen {
    /// The search goes on, after so many words that are not hopeless.
    Passed { visited: u64 },
    /// The search ends.
    Ended(Outcome),
}

/// Looks at the word where the walker stands. A hopeless word is not counted, and not taken.
pub fn look_at<W: Walker>(walker: &W, budget: u64, visited: u64) -> Result<Seen, AllocError>
    requires problem { IsProblem (W.problem walker.now) }
    requires word { IsWord (W.problem walker.now) (W.word walker.now) }
    requires budget { budget < 2 ^ 64 - 1 }
    requires within { visited ≤ budget }
    requires passed { HasPassed (W.problem walker.now) (W.word walker.now) visited }
    ensures seen { IfOk result (IsSeen (W.problem walker.now) budget (W.word walker.now ++ 0 ∷ []) (W.word walker.now)) }
{
    if walker.is_hopeless()? {
        return Ok(Seen::Passed { visited });
    }
    if walker.is_complete() {
        return Ok(Seen::Ended(Outcome::Found));
    }
    if visited == budget {
        return Ok(Seen::Ended(Outcome::Spent {
            visited: budget + 1,
        }));
    }
    Ok(Seen::Passed {
        visited: visited + 1,
    })
}
