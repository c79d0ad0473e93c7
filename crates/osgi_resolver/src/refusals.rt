//! Refusals of roots, kept until their world changes.

ghost use Rattle.std.specs.Prelude.{◌≡◌, IfSome};
ghost use Rattle.osgi_resolver.specs.Answers.{IsAnswerTo};
ghost use Rattle.osgi_resolver.specs.computed.Refused.{answer_of, AreOf};
ghost use Rattle.osgi_world.specs.declared.world.World.{World};

use crate::answer::{Answer, Cause};
use osgi_base::RevisionId;
use std::alloc::Global;
use std::collections::BTreeMap;

/// An answer without wirings.
#[derive(Clone, Copy)]
enum Refusal {
    NoWord(Cause),
    Spent { visited: u64 },
}

impl Refusal {
    /// The answer as a refusal, if it is one.
    fn of(answer: &Answer) -> Option<Refusal>
        ensures refusal { IfSome result (λ refusal. answer_of refusal ≡ answer.now) }
    {
        match answer {
            Answer::Found { word: _, added: _ } => None,
            Answer::NoWord(cause) => Some(Refusal::NoWord(*cause)),
            Answer::Spent { visited } => Some(Refusal::Spent { visited: *visited }),
        }
    }

    fn answer(self) -> Answer
        ensures answer { result ≡ answer_of self }
    {
        match self {
            Refusal::NoWord(cause) => Answer::NoWord(cause),
            Refusal::Spent { visited } => Answer::Spent { visited },
        }
    }
}

/// A refusal, and the budget of its resolve.
#[derive(Clone, Copy)]
struct Refused {
    budget: u64,
    refusal: Refusal,
}

/// The last refusal of each root that was refused in one world. What is refused depends on world, root and budget alone.
#[derive(Drop)]
pub struct Refusals {
    by_root: BTreeMap<u32, Refused>,
}

impl Refusals {
    /// None: they are of each world.
    pub fn new(alloc: Global) -> Refusals
        ensures of { (world : World) → AreOf result world }
    {
        Refusals {
            by_root: BTreeMap::new(alloc),
        }
    }

    /// The answer to the resolve of the root within the budget, where it was refused before.
    pub fn answer(&self, root: RevisionId, budget: u64) -> Option<Answer>
        ensures answer { (world : World) → AreOf self.now world
            → IfSome result (IsAnswerTo world root budget) }
    {
        let refused = self.by_root.get(&root.0)?;
        if refused.budget != budget {
            return None;
        }
        Some(refused.refusal.answer())
    }

    /// Keeps the answer, if it is a refusal. If memory runs out, it is not kept.
    pub fn keep(&mut self, root: RevisionId, budget: u64, answer: &Answer)
        ensures of { (world : World) → AreOf self.old world
            → IsAnswerTo world root budget answer.now → AreOf self.new world }
    {
        let Some(refusal) = Refusal::of(answer) else {
            return;
        };
        // What is not kept is searched for again.
        let _ = self.by_root.insert(root.0, Refused { budget, refusal });
    }
}
