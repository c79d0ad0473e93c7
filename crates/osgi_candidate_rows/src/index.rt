//! Where the candidates of a problem stand: the row of a requirement, and the items of a provider.

ghost use Rattle.std.specs.Prelude.{◌≡◌, ◌+◌, IfOk, IfSome, IsTrue};
ghost use Rattle.osgi_candidate_rows.specs.computed.Index.{AreFirstRows, IsIndexOf, key_for, numbers_from, row_at};
ghost use Rattle.osgi_candidate_rows.specs.computed.Numbers.{IsItemOf, first_number};

use crate::spots::{Spot, Spots};
use osgi_base::RevisionId;
use osgi_world::{Choice, ReqRef};
use std::alloc::{AllocError, Global};
use std::collections::BTreeMap;

/// A requirement, in an order that tells all requirements apart.
#[derive(Clone, Copy, PartialEq, Eq, PartialOrd, Ord)]
pub struct Key {
    pub owner: RevisionId,
    pub index: u32,
}

/// What is found of a problem's choices without a look at each of them.
#[derive(Drop)]
pub struct Index {
    /// The first row of each requirement.
    rows: BTreeMap<Key, usize>,
    /// The number of each row's first item, and then the number of all items.
    firsts: Vec<usize>,
    spots: Spots,
}

fn key_of(requirement: ReqRef) -> Key
    ensures key { result ≡ key_for requirement }
{
    Key {
        owner: requirement.owner,
        index: requirement.index,
    }
}

/// The first row of each requirement: the last row is entered first, and an earlier one takes the place of a later one.
fn first_rows(alloc: Global, choices: &[Choice]) -> Result<BTreeMap<Key, usize>, AllocError>
    ensures rows { IfOk result (AreFirstRows choices.now choices.now) }
{
    let mut rows = BTreeMap::new(alloc);
    for done in 0..choices.len() {
        let row = choices.len() - 1 - done;
        rows.insert(key_of(choices[row].requirement), row)?;
    }
    Ok(rows)
}

/// The number of each row's first item, and then the number of all items.
fn first_items(alloc: Global, choices: &[Choice]) -> Result<Vec<usize>, AllocError>
    ensures numbers { IfOk result (λ firsts. firsts.items ≡ numbers_from 0 choices.now) }
{
    let mut firsts = Vec::new(alloc);
    let mut number: usize = 0;
    for choice in choices {
        firsts.push(number)?;
        let count = choice.candidates.items().len();
        let Some(next) = number.checked_add(count) else {
            return Err(AllocError);
        };
        number = next;
    }
    firsts.push(number)?;
    Ok(firsts)
}

/// Whether the candidate at the spot is one of this provider.
fn is_of(choices: &[Choice], spot: Spot, provider: RevisionId) -> bool
    ensures of { IsTrue result
        → IsItemOf choices.now provider spot.row (first_number choices.now spot.row + spot.place) }
{
    let Some(choice) = choices.get(spot.row) else {
        return false;
    };
    match choice.candidates.items().get(spot.place) {
        Some(candidate) => candidate.provider.0 == provider.0,
        None => false,
    }
}

impl Index {
    pub fn new(alloc: Global, choices: &[Choice]) -> Result<Index, AllocError>
        ensures index { IfOk result (IsIndexOf choices.now) }
    {
        Ok(Index {
            rows: first_rows(alloc, choices)?,
            firsts: first_items(alloc, choices)?,
            spots: Spots::new(alloc, choices)?,
        })
    }

    /// How many items there are.
    pub fn items(&self) -> usize {
        self.firsts.last().copied().unwrap_or(0)
    }

    /// The first row that is listed for the requirement; None where none is.
    pub fn row(&self, requirement: ReqRef) -> Option<usize>
        ensures row { result ≡ row_at self.now.rows requirement }
    {
        self.rows.get(&key_of(requirement)).copied()
    }

    /// Where the provider's candidates stand.
    pub fn spots(&self, provider: RevisionId) -> &[Spot] {
        self.spots.of(provider)
    }

    /// The item of the candidate at the spot, if it is one of this provider.
    pub fn item(&self, choices: &[Choice], spot: Spot, provider: RevisionId) -> Option<usize>
        requires index { IsIndexOf choices.now self.now }
        ensures item { IfSome result (IsItemOf choices.now provider spot.row) }
    {
        if !is_of(choices, spot, provider) {
            return None;
        }
        let Some(first) = self.firsts.get(spot.row) else {
            return None;
        };
        let Some(item) = first.checked_add(spot.place) else {
            return None;
        };
        Some(item)
    }
}
