//! Which items are out, and in which order they were taken out.

ghost use Rattle.std.specs.Prelude.{◌≡◌, ◌≢◌, ℕ, [], ◌∷◌, List, IfOk, IsTrue, OnOk, OnErr, false, true, slice_index_or};
ghost use Rattle.osgi_links.specs.Held.{has};
ghost use Rattle.osgi_candidate_rows.specs.computed.Gone.{Tells};

use std::alloc::{AllocError, Global};

/// Which items are out, by their numbers, and the order in which they were taken out.
#[derive(Drop)]
pub struct Gone {
    is_out: Vec<bool>,
    order: Vec<usize>,
}

/// Marks the item, if it is there.
fn mark(is_out: &mut [bool], item: usize, mark: bool)
    ensures others { (x : ℕ) → x ≢ item
        → slice_index_or is_out.new x true ≡ slice_index_or is_out.old x true }
    ensures item { mark ≡ true → slice_index_or is_out.new item true ≡ true }
{
    if item < is_out.len() {
        is_out[item] = mark;
    }
}

impl Gone {
    /// Of so many items, none of which is out.
    pub fn new(alloc: Global, items: usize) -> Result<Gone, AllocError>
        ensures none { IfOk result (λ gone. Tells gone []) }
    {
        Ok(Gone {
            is_out: vec![in alloc; false; items]?,
            order: Vec::new(alloc),
        })
    }

    /// Whether the item is there, and is not out.
    pub fn is_left(&self, item: usize) -> bool
        ensures left { (removed : List ℕ) → Tells self.now removed → IsTrue result
            → has removed item ≡ false }
    {
        match self.is_out.get(item) {
            Some(is_out) => !*is_out,
            None => false,
        }
    }

    /// Notes that the item, which was not out, is taken out. If memory runs out, nothing is noted.
    pub fn note(&mut self, item: usize) -> Result<(), AllocError>
        ensures noted { OnOk result ((removed : List ℕ) → Tells self.old removed
            → has removed item ≡ false → Tells self.new (item ∷ removed)) }
        ensures unchanged { OnErr result ((removed : List ℕ) → Tells self.old removed
            → Tells self.new removed) }
    {
        self.order.push(item)?;
        mark(&mut self.is_out, item, true);
        Ok(())
    }

    /// Notes that the item that was taken out last is put back.
    pub fn forget_last(&mut self)
        ensures forgotten { (item : ℕ) (removed : List ℕ) → Tells self.old (item ∷ removed)
            → Tells self.new removed }
    {
        let Some(item) = self.order.pop() else {
            return;
        };
        mark(&mut self.is_out, item, false);
    }
}
