//! The lists of which the rows are made: for each choice of a problem the places of its candidates.

ghost use Rattle.std.specs.Prelude.{◌≡◌, IfOk};
ghost use Rattle.osgi_links.specs.Held.{contents, count_up};
ghost use Rattle.osgi_candidate_rows.specs.computed.Numbers.{places};

use osgi_world::Choice;
use std::alloc::{AllocError, Global};

/// As many places, counted from 0.
fn places_below(alloc: Global, count: usize) -> Result<Vec<u64>, AllocError>
    ensures places { IfOk result (λ list. list.items ≡ count_up 0 count) }
{
    let mut list = Vec::new(alloc);
    for place in 0..count {
        list.push(place as u64)?;
    }
    Ok(list)
}

/// A list for each choice.
pub fn places_of(alloc: Global, choices: &[Choice]) -> Result<Vec<Vec<u64>>, AllocError>
    ensures places { IfOk result (λ lists. contents lists.items ≡ places choices.now) }
{
    let mut lists = Vec::new(alloc);
    for choice in choices {
        let count = choice.candidates.items().len();
        lists.push(places_below(alloc, count)?)?;
    }
    Ok(lists)
}
