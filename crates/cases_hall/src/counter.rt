//! A machine that counts.

ghost use Rattle.std.specs.Prelude.{◌≡◌, ◌≤◌, [], length, IfSome};
ghost use Rattle.osgi_hall.specs.Histories.{IsApplied, TellsOfPrefix};
ghost use Rattle.cases_hall.specs.Totals.{is_total, CanMake, GivesTotal, HintsCount, TellsCount};

use osgi_base::Tag;
use osgi_hall::{Entry, Machine};
use std::alloc::{AllocError, Global};
use std::sync::Wait;

#[derive(Clone, Copy, PartialEq, Eq, Debug)]
pub enum Answer {
    /// The new total.
    Total(u64),
    /// The counter has as many entries as it may have. This is not recorded.
    Full,
}

/// Adds what it is asked to add, and answers the new total. Adding 0 finds no memory. It can be asked how many entries it has, and
/// takes as a hint how many it had.
#[derive(Drop)]
pub struct Counter {
    total: u64,
    limit: u64,
    history: Vec<Entry<u64, Answer>>,
    ghost within: { length history.items ≤ limit },
}

impl Counter {
    pub fn new(alloc: Global, limit: u64) -> Counter
        ensures { (result.history.items ≡ []) × (result.limit ≡ limit) }
    {
        Counter {
            total: 0,
            limit,
            history: Vec::new(alloc),
        }
    }

    pub fn history(&self) -> &[Entry<u64, Answer>]
        ensures { result.now ≡ self.now.history.items }
    {
        self.history.as_slice()
    }
}

impl Machine for Counter {
    type Op = u64;

    type Reply = Answer;

    type Setting = u64;

    type Hint = u64;

    type Ask = ();

    type View = u64;

    ghost entries = { λ c. c.history.items };

    ghost setting = { λ c. c.limit };

    ghost can_make = { CanMake };

    ghost is_recorded = { is_total };

    ghost gives = { GivesTotal };

    ghost hints = { HintsCount };

    ghost tells = { TellsCount };

    fn recorded(reply: &Answer) -> bool {
        match reply {
            Answer::Total(_) => true,
            Answer::Full => false,
        }
    }

    fn length(&self) -> u64 {
        self.history.len() as u64
    }

    // The clauses of the trait: the kit does not take them over where a parameter is an `Option` of an associated type.
    #[tactic(auto, using(crate::proofs::Hints::still_full))]
    fn apply(&mut self, tag: Tag, op: u64, hint: Option<u64>) -> Result<Answer, AllocError>
        requires hint { IfSome hint (TellsOfPrefix (HintsCount self.old.limit) self.old.history.items) }
        ensures setting { self.new.limit ≡ self.old.limit }
        ensures applied { IsApplied is_total (GivesTotal self.old.limit) self.old.history.items self.new.history.items tag op result }
    {
        // Once it is full it stays full.
        if let Some(count) = hint
            && count == self.limit
        {
            return Ok(Answer::Full);
        }
        if op == 0 {
            return Err(AllocError);
        }
        if self.history.len() as u64 == self.limit {
            return Ok(Answer::Full);
        }
        let total = self.total.wrapping_add(op);
        let reply = Answer::Total(total);
        self.history.push(Entry { tag, op, reply })?;
        self.total = total;
        Ok(reply)
    }

    fn view<R: Wait>(&mut self, _rt: &R, _ask: ()) -> Result<u64, AllocError> {
        Ok(self.length())
    }
}
