//! Taking the candidates of one provider out of their rows, and putting candidates back.

ghost use Rattle.std.specs.Prelude.{◌≡◌, ◌≤◌, IsTrue, drop, false, length};
ghost use Rattle.osgi_links.specs.Held.{has, linked};
ghost use Rattle.osgi_candidate_rows.specs.computed.Gone.{Tells};
ghost use Rattle.osgi_candidate_rows.specs.computed.Index.{IsIndexOf};
ghost use Rattle.osgi_candidate_rows.specs.computed.Numbers.{HoldsPlaces, IsOneOut, Removes};

use crate::gone::Gone;
use crate::index::Index;
use osgi_base::RevisionId;
use osgi_links::Rows;
use osgi_world::Choice;

/// Takes the item out, if it is not out already; gives how many are out then, where so many were before. Where the number would not
/// fit, or memory runs out, the item stays.
fn take_out_item(rows: &mut Rows, gone: &mut Gone, row: usize, item: usize, count: usize) -> usize
    requires gone { Tells gone.old rows.old.removed }
    requires live { has rows.old.removed item ≡ false → IsTrue (has (linked rows.old row) item) }
    ensures taken { IsOneOut item count rows.old result rows.new }
    ensures gone { Tells gone.new rows.new.removed }
{
    if !gone.is_left(item) {
        return count;
    }
    let Some(more) = count.checked_add(1) else {
        return count;
    };
    let Ok(()) = gone.note(item) else {
        return count;
    };
    rows.unlink(row, item);
    more
}

/// Takes the provider's candidates out of all rows; gives how many are out then, where so many were before.
pub fn take_out_of(
    choices: &[Choice],
    index: &Index,
    rows: &mut Rows,
    gone: &mut Gone,
    provider: RevisionId,
    before: usize,
) -> usize
    requires holds { HoldsPlaces choices.now rows.old }
    requires index { IsIndexOf choices.now index.now }
    requires gone { Tells gone.old rows.old.removed }
    ensures taken { Removes choices.now provider before rows.old result rows.new }
    ensures gone { Tells gone.new rows.new.removed }
{
    let mut count = before;
    for spot in index.spots(provider) {
        let Some(item) = index.item(choices, *spot, provider) else {
            continue;
        };
        count = take_out_item(rows, gone, spot.row, item, count);
    }
    count
}

/// Puts so many items back, the last one that was taken out first.
pub fn put_back_last(rows: &mut Rows, gone: &mut Gone, count: usize)
    requires out { count ≤ length rows.old.removed }
    requires gone { Tells gone.old rows.old.removed }
    ensures back { rows.new ≡ record rows.old { removed = drop count rows.old.removed } }
    ensures gone { Tells gone.new rows.new.removed }
{
    for _ in 0..count {
        gone.forget_last();
        rows.relink();
    }
}
