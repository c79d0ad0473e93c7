//! The candidates of a row that are not out.

ghost use Rattle.std.specs.Prelude.{◌≡◌, ◌<◌, List, length};
ghost use Rattle.osgi_candidate_rows.specs.computed.Numbers.{HoldsPlaces, IsNextPlace, row_of};
ghost use Rattle.osgi_world.specs.declared.problem.Choice.{Choice};

use osgi_links::Rows;
use osgi_world::Choice;

/// How many candidates the row has, with those that are out.
pub fn count_in(choices: &[Choice], row: usize) -> u64
    requires row { row < length choices.now }
    ensures count { result ≡ length (row_of choices.now row) }
{
    choices[row].candidates.items().len() as u64
}

/// A place in the row, from this one on, before which none is left: the first candidate that is not out, or this place itself.
/// None where no candidate is left.
pub fn place_from(rows: &Rows, row: usize, from: u64) -> Option<u64>
    requires row { row < length rows.now.rows }
    ensures place { (choices : List Choice) → HoldsPlaces choices rows.now → row < length choices
        → IsNextPlace choices rows.now.removed row from result }
{
    let Some(mut item) = rows.first(row) else {
        return None;
    };
    for _ in 0..u64::MAX {
        let place = rows.value(item);
        if place >= from {
            return Some(place);
        }
        let Some(next) = rows.next(row, item) else {
            return None;
        };
        item = next;
    }
    Some(from)
}
