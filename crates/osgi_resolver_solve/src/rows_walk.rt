//! A walk over the words of a given problem, with the problem's candidates in linked rows.

ghost use Rattle.std.specs.Prelude.{◌≡◌, ℕ, [], IfOk};
ghost use Rattle.osgi_resolver.specs.Answers.{IsAnswer};
ghost use Rattle.osgi_resolver_solve.specs.computed.Layers.{problem_at};
ghost use Rattle.osgi_resolver_search.specs.Outcomes.{IsOutcome};
ghost use Rattle.osgi_world.specs.Candidates.{IsProblem};

use crate::rivals::{take_out_by_last, take_out_rivals};
use osgi_candidate_rows::CandidateRows;
use osgi_resolver::{Answer, answer_of};
use osgi_resolver_decisions::DecisionRef;
use osgi_resolver_hopeless::{has_become_hopeless, is_hopeless};
use osgi_resolver_path::Path;
use osgi_resolver_search::{Outcome, Walker};
use std::alloc::{AllocError, Global};
use std::marker::Model;

/// A path of the problem, and the candidates that the problem lists, in rows. When a revision joins, the candidates of its rivals are
/// taken out, since with each of them the word would be hopeless; when the decision is taken back they are put back. Those of the
/// root's rivals are out for good. Contracts see the problem, and the word at which the path stands.
#[derive(Drop)]
pub struct RowsWalk<'w> {
    alloc: Global,
    path: Path<'w>,
    rows: CandidateRows<'w>,
    /// How many candidates each decision took out.
    taken: Vec<usize>,
}

impl<'w> Model for RowsWalk<'w> {
    ghost use Rattle.std.specs.Coded.{codes};
    ghost use Rattle.osgi_model.specs.contracts.filter.Filter as filter;
    ghost use Rattle.osgi_model.specs.contracts.value.Value as value;
    ghost use Rattle.osgi_resolver_solve.specs.computed.Layers.{IsInRows, Place, problem_at};

    ghost Value = { Place };

    ghost coded = { Prim.hlevel (codes, filter.the_row.coded, value.the_row.coded) };

    ghost view = { λ w. record { problem = problem_at w.path w.rows; word = w.path.word } };

    ghost invariant = { λ w. IsInRows w.path w.rows w.taken.items };
}

impl<'w> RowsWalk<'w> {
    /// At the empty word.
    pub fn new(alloc: Global, path: Path<'w>, rows: CandidateRows<'w>) -> RowsWalk<'w>
        requires problem { IsProblem (problem_at path rows) }
        requires empty { path.word ≡ [] }
        requires all { rows.out ≡ [] }
        ensures there { result ≡ record { problem = problem_at path.entry rows.entry; word = [] } }
    {
        let mut rows = rows;
        let root = path.root();
        take_out_rivals(&path, &mut rows, root);
        RowsWalk {
            alloc,
            path,
            rows,
            taken: Vec::new(alloc),
        }
    }

    /// What is answered where a search ended here.
    pub fn answer(&self, outcome: Outcome) -> Result<Answer, AllocError>
        ensures answer { IfOk result (λ answer. (budget : ℕ)
            → IsOutcome self.now.problem budget self.now.word outcome
            → IsAnswer self.now.problem budget answer) }
    {
        let answer = answer_of(self.alloc, &self.path, outcome)?;
        Ok(answer)
    }
}

impl<'w> Walker for RowsWalk<'w> {
    ghost problem = { λ p. p.problem };

    ghost word = { λ p. p.word };

    fn is_hopeless(&self) -> Result<bool, AllocError> {
        is_hopeless(self.alloc, &self.path)
    }

    fn has_become_hopeless(&self) -> Result<bool, AllocError> {
        has_become_hopeless(self.alloc, &self.path)
    }

    fn is_complete(&self) -> bool {
        self.path.is_complete()
    }

    fn values(&self) -> u64 {
        self.path.values()
    }

    /// Passes over candidates that are out.
    fn next_value(&self, from: u64) -> u64 {
        let Some(decision) = self.path.next() else {
            return from;
        };
        match decision {
            DecisionRef::Choose { requirement, .. } => self.rows.next(requirement, from),
            _ => from,
        }
    }

    fn longer(&mut self, value: u64) -> Result<(), AllocError> {
        self.path.longer(value)?;
        let count = take_out_by_last(&self.path, &mut self.rows);
        if self.taken.push(count).is_err() {
            self.rows.put_back(count);
            self.path.shorter();
            return Err(AllocError);
        }
        Ok(())
    }

    fn shorter(&mut self) -> Option<u64> {
        let value = self.path.shorter()?;
        let count = self.taken.pop().unwrap();
        self.rows.put_back(count);
        Some(value)
    }
}
