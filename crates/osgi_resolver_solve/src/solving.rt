//! The answer to a problem.

ghost use Rattle.std.specs.Prelude.{◌-◌, ◌^◌, ◌<◌, IfOk};
ghost use Rattle.osgi_candidates.specs.Following.{Covers};
ghost use Rattle.osgi_world.specs.Candidates.{IsProblem};
ghost use Rattle.osgi_resolver.specs.Answers.{IsAnswer};

use crate::rows_walk::RowsWalk;
use osgi_candidate_rows::CandidateRows;
use osgi_candidates::{OfferIndex, Offers};
use osgi_resolver::Answer;
use osgi_resolver_path::Path;
use osgi_resolver_search::search;
use osgi_space::DisputedRows;
use osgi_world::Problem;
use std::alloc::{AllocError, Global};

/// Solves a problem: what `resolve` answers for its root in its world. The search keeps the candidates that the problem lists in
/// linked rows, and takes out those that would make the word hopeless.
pub fn solve(alloc: Global, problem: &Problem, budget: u64) -> Result<Answer, AllocError>
    requires problem { IsProblem problem.now }
    requires budget { budget < 2 ^ 64 - 1 }
    ensures answer { IfOk result (IsAnswer problem.now budget) }
{
    let mut index = OfferIndex::new(alloc);
    index.follow(alloc, &problem.world)?;
    solve_over(alloc, problem, &index, budget)
}

/// Searches over the offers of the problem's world, and the rows of its candidates.
fn solve_over(
    alloc: Global,
    problem: &Problem,
    index: &OfferIndex,
    budget: u64,
) -> Result<Answer, AllocError>
    requires problem { IsProblem problem.now }
    requires budget { budget < 2 ^ 64 - 1 }
    requires covers { Covers index.now problem.now.world.known problem.now.world.wirings }
    ensures answer { IfOk result (IsAnswer problem.now budget) }
{
    let world = &problem.world;
    let disputed = DisputedRows::new(alloc, world.known.items(), world.wirings.items())?;
    let offers = Offers::new(alloc, world, index)?;
    let path = Path::new(alloc, world, problem.root, offers, disputed)?;
    let rows = CandidateRows::new(alloc, problem.choices.items())?;
    let mut walk = RowsWalk::new(alloc, path, rows);
    let outcome = search(&mut walk, budget)?;
    let answer = walk.answer(outcome)?;
    Ok(answer)
}
