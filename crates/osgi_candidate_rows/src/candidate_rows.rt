//! The candidates of a problem in linked rows.

ghost use Rattle.std.specs.Prelude.{◌≡◌, ◌≤◌, ◌⊎◌, [], drop, length, IfOk};
ghost use Rattle.osgi_candidate_rows.specs.Listed.{AreOutBetween, TakesOut, listed};

use crate::gone::Gone;
use crate::index::Index;
use crate::listing::places_of;
use crate::row::{count_in, place_from};
use crate::taking::{put_back_last, take_out_of};
use osgi_base::RevisionId;
use osgi_links::Rows;
use osgi_world::{Choice, ReqRef};
use std::alloc::{AllocError, Global};
use std::marker::Model;

/// A row for each choice of a problem, with an item for each candidate: its value is the candidate's place in the list. All rows
/// stand in one block. The row of a requirement and the items of a provider are found without a look at the other choices. Contracts
/// see the choices, and the candidates that are out, the last one first.
#[derive(Drop)]
pub struct CandidateRows<'p> {
    choices: &'p [Choice],
    index: Index,
    rows: Rows,
    gone: Gone,
}

impl<'p> Model for CandidateRows<'p> {
    ghost use Rattle.std.specs.Prelude.{map};
    ghost use Rattle.osgi_candidate_rows.specs.Listed.{Listed};
    ghost use Rattle.osgi_candidate_rows.specs.computed.Gone.{Tells};
    ghost use Rattle.osgi_candidate_rows.specs.computed.Index.{IsIndexOf};
    ghost use Rattle.osgi_candidate_rows.specs.computed.Numbers.{HoldsPlaces, candidate};

    ghost Value = { Listed };

    ghost view = { λ r. record {
      choices = r.choices.now;
      out = map (candidate r.choices.now) r.rows.removed;
    } };

    ghost invariant = { λ r. HoldsPlaces r.choices.now r.rows × IsIndexOf r.choices.now r.index
        × Tells r.gone r.rows.removed };
}

impl<'p> CandidateRows<'p> {
    /// The rows of the choices. None of the candidates is out.
    pub fn new(alloc: Global, choices: &'p [Choice]) -> Result<CandidateRows<'p>, AllocError>
        ensures rows { IfOk result (λ rows. rows ≡ record { choices = choices.now; out = [] }) }
    {
        let index = Index::new(alloc, choices)?;
        let gone = Gone::new(alloc, index.items())?;
        let lists = places_of(alloc, choices)?;
        let rows = Rows::new(alloc, lists.as_slice())?;
        Ok(CandidateRows {
            choices,
            index,
            rows,
            gone,
        })
    }

    /// A place from this one on, before which each candidate of the requirement is out: that of the first that is not, if there
    /// is one.
    pub fn next(&self, requirement: ReqRef, from: u64) -> u64
        ensures above { from ≤ result }
        ensures listed { (result ≤ length (listed self.now.choices requirement)) ⊎ (result ≡ from) }
        ensures out { AreOutBetween self.now requirement from result }
    {
        let Some(row) = self.index.row(requirement) else {
            return from;
        };
        match place_from(&self.rows, row, from) {
            Some(place) => place,
            None => from.max(count_in(self.choices, row)),
        }
    }

    /// Takes the provider's candidates out of all rows. Gives how many were taken out then, where so many were before. Where memory
    /// runs out, some of them stay.
    pub fn take_out(&mut self, provider: RevisionId, before: usize) -> usize
        ensures taken { TakesOut provider before self.old result self.new }
    {
        take_out_of(
            self.choices,
            &self.index,
            &mut self.rows,
            &mut self.gone,
            provider,
            before,
        )
    }

    /// Puts so many candidates back, the last one that was taken out first.
    pub fn put_back(&mut self, count: usize)
        requires out { count ≤ length self.old.out }
        ensures back { self.new ≡ record self.old { out = drop count self.old.out } }
    {
        put_back_last(&mut self.rows, &mut self.gone, count);
    }
}
