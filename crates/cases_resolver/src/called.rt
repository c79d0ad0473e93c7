//! Calls that put nothing in force, and what they answer.

ghost use Rattle.std.specs.Prelude.{IfOk};
ghost use Rattle.osgi_world.specs.Candidates.{IsProblem, IsUnresolved};

use crate::asked::obstacle;
use crate::shown::{push_cause, push_first, push_found, push_rows};
use crate::slowly::{FirstWord, first_word_slowly};
use osgi_base::RevisionId;
use osgi_candidates::problem;
use osgi_resolver::{Answer, resolve};
use osgi_resolver_solve::solve;
use osgi_wiring::Wirings;
use osgi_world::Problem;
use std::alloc::{AllocError, Global};
use std::fmt::Write;

/// A call that puts nothing in force and keeps nothing of the world.
#[derive(Clone, Copy)]
pub enum Call {
    /// The resolve of one revision.
    Anew,
    /// The slow search.
    Slowly,
    /// The problem with all of its rows.
    Problem,
    /// Its answer.
    Solve,
}

/// Adds an answer of which nothing is put in force.
fn push_told(out: &mut String, wirings: &Wirings, answer: &Answer) -> Result<(), AllocError> {
    match answer {
        Answer::Found { word, added } => push_found(out, word.items(), added.items()),
        Answer::NoWord(cause) => push_cause(out, wirings, *cause),
        Answer::Spent { visited } => write!(out, "spent {visited}"),
    }
}

/// Adds how a revision that may be resolved is resolved where nothing of its world was kept.
fn push_answer_anew(
    alloc: Global,
    out: &mut String,
    wirings: &Wirings,
    root: RevisionId,
    budget: u32,
) -> Result<(), AllocError>
    requires unresolved { IsUnresolved wirings.now.world.known wirings.now.world.wirings root }
{
    let answer = resolve(alloc, wirings.world(), root, u64::from(budget))?;
    push_told(out, wirings, &answer)
}

/// Adds what the slow search answers for a revision that may be resolved.
fn push_answer_slowly(
    alloc: Global,
    out: &mut String,
    wirings: &Wirings,
    root: RevisionId,
    budget: u32,
) -> Result<(), AllocError>
    requires unresolved { IsUnresolved wirings.now.world.known wirings.now.world.wirings root }
{
    match first_word_slowly(alloc, wirings.world(), root, u64::from(budget))? {
        FirstWord::Found(word) => push_first(out, word.items()),
        FirstWord::NoWord => out.push_str("none"),
        FirstWord::Spent { visited } => write!(out, "spent {visited}"),
    }
}

/// The problem of a revision that may be resolved.
fn posed(alloc: Global, wirings: &Wirings, root: RevisionId) -> Result<Problem, AllocError>
    requires unresolved { IsUnresolved wirings.now.world.known wirings.now.world.wirings root }
    ensures problem { IfOk result IsProblem }
{
    let copy = wirings.world().copy(alloc)?;
    problem(alloc, copy, root)
}

/// Adds the rows of the problem of a revision that may be resolved.
fn push_problem(
    alloc: Global,
    out: &mut String,
    wirings: &Wirings,
    root: RevisionId,
) -> Result<(), AllocError>
    requires unresolved { IsUnresolved wirings.now.world.known wirings.now.world.wirings root }
{
    let posed = posed(alloc, wirings, root)?;
    push_rows(out, posed.choices.items())
}

/// Adds how a revision that may be resolved is resolved by its problem.
fn push_answer_solved(
    alloc: Global,
    out: &mut String,
    wirings: &Wirings,
    root: RevisionId,
    budget: u32,
) -> Result<(), AllocError>
    requires unresolved { IsUnresolved wirings.now.world.known wirings.now.world.wirings root }
{
    let posed = posed(alloc, wirings, root)?;
    let answer = solve(alloc, &posed, u64::from(budget))?;
    push_told(out, wirings, &answer)
}

/// Adds what a call answers for a revision that may be resolved.
fn push_answer(
    alloc: Global,
    out: &mut String,
    wirings: &Wirings,
    call: Call,
    root: RevisionId,
    budget: u32,
) -> Result<(), AllocError>
    requires unresolved { IsUnresolved wirings.now.world.known wirings.now.world.wirings root }
{
    match call {
        Call::Anew => push_answer_anew(alloc, out, wirings, root, budget),
        Call::Slowly => push_answer_slowly(alloc, out, wirings, root, budget),
        Call::Problem => push_problem(alloc, out, wirings, root),
        Call::Solve => push_answer_solved(alloc, out, wirings, root, budget),
    }
}

/// Adds what a call answers for a revision, or why it cannot be resolved.
pub fn push_called(
    alloc: Global,
    out: &mut String,
    wirings: &Wirings,
    call: Call,
    root: RevisionId,
    budget: u32,
) -> Result<(), AllocError> {
    match obstacle(wirings, root) {
        Some(reason) => out.push_str(reason),
        None => push_answer(alloc, out, wirings, call, root, budget),
    }
}
