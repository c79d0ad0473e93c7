//! The theory of the complete resolver: worlds and their wirings, choice words, and what is settled, hopeless, good and first;
//! what one decision more can make hopeless; and that each bundle that is to be resolved has a problem.
//! Each function here is a fact of that theory; it does nothing.
#![tactic(auto)]

ghost use Rattle.osgi_world.specs.Candidates.{IsProblem};
ghost use Rattle.osgi_world.specs.declared.problem.Problem.{Problem};
ghost use Rattle.osgi_world.specs.declared.world.World.{World};
ghost use Rattle.osgi_resolver_theory.specs.Facts.{SettledStays, HopelessStays, CompleteSettles, CompleteExtends, ExtensionsAreWords, HasOutcome, ResolvesAgree, StandsInOrder};

mod onward;
mod problem;

pub use onward::{
    clashes_lead_to_host, joined_lack, offers_end_with_host, only_new_reasons,
    only_touched_are_stuck, quiet_while_undecided, settles_anew,
};
pub use problem::has_problem;

/// What is settled stays settled in every extension of a word, and keeps its offer and its sources.
pub fn settled_stays()
    ensures { (P : Problem) → IsProblem P → SettledStays P }
{}

/// Extensions of a hopeless word are hopeless.
pub fn hopeless_stays()
    ensures { (P : Problem) → IsProblem P → HopelessStays P }
{}

/// Where no decision is left, every revision in force is settled.
pub fn complete_settles()
    ensures { (P : Problem) → IsProblem P → CompleteSettles P }
{}

/// A complete word is not hopeless exactly where its wirings extend the present ones.
pub fn complete_extends()
    ensures { (P : Problem) → IsProblem P → CompleteExtends P }
{}

/// Wirings that extend the present ones, cut down to what is reached from the root, are those of a good word.
pub fn extensions_are_words()
    ensures { (P : Problem) → IsProblem P → ExtensionsAreWords P }
{}

/// There is a first good word or none, and the effort is a number.
pub fn has_outcome()
    ensures { (P : Problem) → IsProblem P → HasOutcome P }
{}

/// Whichever problem of resolving a bundle of a world is taken, the effort, the first word and the wirings are the same.
pub fn resolves_agree()
    ensures { (world : World) → ResolvesAgree world }
{}

/// The wirings that a resolve comes to stand in order, as those before it do.
pub fn stands_in_order()
    ensures { (world : World) → StandsInOrder world }
{}
