//! What is answered where a search has ended.

ghost use Rattle.std.specs.Prelude.{ℕ, IfOk};
ghost use Rattle.osgi_resolver.specs.Answers.{IsAnswer};
ghost use Rattle.osgi_resolver_path.specs.Standing.{IsProblemOf};
ghost use Rattle.osgi_resolver_search.specs.Outcomes.{IsOutcome};
ghost use Rattle.osgi_world.specs.declared.problem.Problem.{Problem};

use crate::answer::Answer;
use crate::lacking::cause_of;
use osgi_resolver_path::Path;
use osgi_resolver_search::Outcome;
use std::alloc::{AllocError, Global};

/// The answer to a problem where the search over its words has ended at the path.
pub fn answer_of(alloc: Global, path: &Path, outcome: Outcome) -> Result<Answer, AllocError>
    ensures answer { IfOk result (λ answer. (P : Problem) (budget : ℕ) → IsProblemOf path.now P
        → IsOutcome P budget path.now.word outcome → IsAnswer P budget answer) }
{
    match outcome {
        Outcome::Found => Ok(Answer::Found {
            word: path.word(alloc)?,
            added: path.added(alloc)?,
        }),
        Outcome::NoWord => Ok(Answer::NoWord(cause_of(path))),
        Outcome::Spent { visited } => Ok(Answer::Spent { visited }),
    }
}
