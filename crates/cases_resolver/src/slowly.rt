//! What the slow search answers for a root in a world.

ghost use Rattle.std.specs.Prelude.{◌^◌, ◌-◌, ◌<◌, ℕ, IfOk};
ghost use Rattle.osgi_world.specs.Candidates.{IsResolvable};
ghost use Rattle.osgi_resolver_theory.specs.WorldProblems.{the_problem};
ghost use Rattle.osgi_candidates.specs.Following.{Covers};
ghost use Rattle.osgi_resolver_search.specs.Outcomes.{IsOutcome};
ghost use Rattle.cases_resolver.specs.FirstWords.{IsFirstWord};

use cases_slow_search::search_all_words;
use osgi_base::{List, RevisionId};
use osgi_candidates::{OfferIndex, Offers};
use osgi_resolver::Walk;
use osgi_resolver_path::Path;
use osgi_resolver_search::Outcome;
use osgi_space::DisputedRows;
use osgi_world::World;
use std::alloc::{AllocError, Global};

/// How a search over all words ends, with the first good word where there is one.
pub enum FirstWord {
    Found(List<u64>),
    NoWord,
    Spent { visited: u64 },
}

/// Searches all words of the problem of resolving the root, without what a resolve keeps of the world and without leaving
/// hopeless words out.
pub fn first_word_slowly(
    alloc: Global,
    world: &World,
    root: RevisionId,
    budget: u64,
) -> Result<FirstWord, AllocError>
    requires resolvable { IsResolvable world.now root }
    requires budget { budget < 2 ^ 64 - 1 }
    ensures first { IfOk result (IsFirstWord (the_problem world.now root) budget) }
{
    let mut index = OfferIndex::new(alloc);
    index.follow(alloc, world)?;
    first_word_over(alloc, world, &index, root, budget)
}

/// Searches all words over what the world offers.
fn first_word_over(
    alloc: Global,
    world: &World,
    index: &OfferIndex,
    root: RevisionId,
    budget: u64,
) -> Result<FirstWord, AllocError>
    requires resolvable { IsResolvable world.now root }
    requires budget { budget < 2 ^ 64 - 1 }
    requires covers { Covers index.now world.now.known world.now.wirings }
    ensures first { IfOk result (IsFirstWord (the_problem world.now root) budget) }
{
    let rows = DisputedRows::new(alloc, world.known.items(), world.wirings.items())?;
    let offers = Offers::new(alloc, world, index)?;
    let path = Path::new(alloc, world, root, offers, rows)?;
    let mut walk = Walk { alloc, path };
    let outcome = search_all_words(&mut walk, budget)?;
    first_of(&walk, outcome)
}

/// What is answered where the search has ended.
fn first_of(walk: &Walk, outcome: Outcome) -> Result<FirstWord, AllocError>
    ensures first { IfOk result (λ first. (budget : ℕ) → IsOutcome (the_problem walk.now.world walk.now.root) budget walk.now.word outcome → IsFirstWord (the_problem walk.now.world walk.now.root) budget first) }
{
    match outcome {
        Outcome::Found => Ok(FirstWord::Found(walk.path.word(walk.alloc)?)),
        Outcome::NoWord => Ok(FirstWord::NoWord),
        Outcome::Spent { visited } => Ok(FirstWord::Spent { visited }),
    }
}
