//! What a resolve answers.

use osgi_base::List;
use osgi_world::{ReqRef, Wiring};

/// Why nothing can be chosen.
#[derive(Clone, Copy, PartialEq, Eq)]
pub enum Cause {
    /// The first mandatory effective requirement of the root itself that has no candidate.
    NoCandidate(ReqRef),
    /// Each mandatory effective requirement of the root has candidates, and still no choice is consistent.
    Clash,
}

#[derive(Drop)]
pub enum Answer {
    /// The first good word, and the wirings that it adds.
    Found {
        word: List<u64>,
        added: List<Wiring>,
    },
    /// No consistent wirings extend the present ones and contain the root, and the effort is within the budget.
    NoWord(Cause),
    /// The effort is above the budget.
    Spent {
        visited: u64,
    },
}
