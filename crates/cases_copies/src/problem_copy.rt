//! A copy of a problem, and whether its parts are those that were copied.

use crate::copies::one;
use cases_text::{put, put_shown};
use osgi_base::{Copied, List, RevisionId};
use osgi_world::{CapRef, Choice, Problem, ReqRef, World};
use std::alloc::{AllocError, Global};

const REQUIREMENT: ReqRef = ReqRef {
    owner: RevisionId(3),
    index: 4,
};

const CAPABILITY: CapRef = CapRef {
    provider: RevisionId(5),
    owner: RevisionId(5),
    index: 2,
};

fn choice(alloc: Global) -> Result<Choice, AllocError> {
    let candidates = one(alloc, Ok(CAPABILITY))?;
    Ok(Choice {
        requirement: REQUIREMENT,
        candidates,
    })
}

/// A problem of one row, in a world of nothing.
fn problem(alloc: Global) -> Result<Problem, AllocError> {
    let known = List::new(alloc)?;
    let wirings = List::new(alloc)?;
    let choices = one(alloc, choice(alloc))?;
    Ok(Problem {
        world: World { known, wirings },
        root: RevisionId(8),
        choices,
    })
}

/// Whether the row is the one that was made.
fn is_choice_made(choice: &Choice) -> bool {
    choice.requirement == REQUIREMENT && choice.candidates.items().first() == Some(&CAPABILITY)
}

/// Whether the problem has the parts that it was made of.
fn is_made(problem: &Problem) -> bool {
    match problem.choices.items().first() {
        Some(choice) => problem.root == RevisionId(8) && is_choice_made(choice),
        None => false,
    }
}

/// Adds whether the copy of a problem is as the problem was made.
pub fn problem_copy(alloc: Global, out: &mut String) -> Result<(), AllocError> {
    let posed = problem(alloc)?;
    put(out, "problem ")?;
    put_shown(out, &is_made(&posed.copied(alloc)?))
}
