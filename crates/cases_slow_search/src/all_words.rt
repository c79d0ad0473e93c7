//! The search over all words of a problem, in their order.

ghost use Rattle.std.specs.Prelude.{◌≡◌, ◌^◌, ◌-◌, ◌<◌, ◌≤◌, [], IfOk, OnOk};
ghost use Rattle.osgi_world.specs.Candidates.{IsProblem};
ghost use Rattle.osgi_world.specs.ChoiceWords.{IsWord};
ghost use Rattle.osgi_resolver_search.specs.Outcomes.{IsOutcome};
ghost use Rattle.cases_slow_search.specs.Seen.{HasPassed, IsSeen, StaysAt, after};

use crate::seen::{Seen, look_at};
use osgi_resolver_search::{Outcome, Walker};
use std::alloc::AllocError;

/// Looks at the word where the walker stands, and then at all that extend it, in their order. Where the search goes on, the
/// walker stands there again.
fn look_below<W: Walker>(walker: &mut W, budget: u64, visited: u64) -> Result<Seen, AllocError>
    requires problem { IsProblem (W.problem walker.old) }
    requires word { IsWord (W.problem walker.old) (W.word walker.old) }
    requires budget { budget < 2 ^ 64 - 1 }
    requires within { visited ≤ budget }
    requires passed { HasPassed (W.problem walker.old) (W.word walker.old) visited }
    ensures problem { OnOk result (W.problem walker.new ≡ W.problem walker.old) }
    ensures stays { IfOk result (StaysAt (W.word walker.old) (W.word walker.new)) }
    ensures seen { IfOk result (IsSeen (W.problem walker.old) budget (after (W.problem walker.old) (W.word walker.old)) (W.word walker.new)) }
{
    let mut visited = match look_at(walker, budget, visited)? {
        Seen::Passed { visited } => visited,
        Seen::Ended(outcome) => return Ok(Seen::Ended(outcome)),
    };
    for value in 0..walker.values() {
        walker.longer(value)?;
        visited = match look_below(walker, budget, visited)? {
            Seen::Passed { visited } => visited,
            Seen::Ended(outcome) => return Ok(Seen::Ended(outcome)),
        };
        walker.shorter();
    }
    Ok(Seen::Passed { visited })
}

/// Searches from the empty word. Where it finds the first good word, the walker stands there.
pub fn search_all_words<W: Walker>(walker: &mut W, budget: u64) -> Result<Outcome, AllocError>
    requires problem { IsProblem (W.problem walker.old) }
    requires empty { W.word walker.old ≡ [] }
    requires budget { budget < 2 ^ 64 - 1 }
    ensures problem { OnOk result (W.problem walker.new ≡ W.problem walker.old) }
    ensures outcome { IfOk result (λ outcome. IsOutcome (W.problem walker.old) budget (W.word walker.new) outcome) }
{
    match look_below(walker, budget, 0)? {
        Seen::Passed { visited: _ } => Ok(Outcome::NoWord),
        Seen::Ended(outcome) => Ok(outcome),
    }
}
