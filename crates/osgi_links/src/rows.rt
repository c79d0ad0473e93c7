//! Rows of items, some of them taken out. Contracts see the items of each row, each item's value, and the items that are out,
//! the last one first.

ghost use Rattle.std.specs.Prelude.{◌≡◌, ◌≢◌, ℕ, ◌+◌, ◌^◌, ◌<◌, ◌∷◌, drop, length, slice_index, IfOk, IfSome, IsTrue};
ghost use Rattle.osgi_links.specs.Held.{after, contents, first_of, has, linked, new_rows, without};
ghost use Rattle.osgi_links.specs.computed.Chain.{next_at};
ghost use Rattle.osgi_links.specs.computed.Seen.{IsInside, item_behind};

use crate::block::Block;
use crate::building::{counts, push_bounds, push_values};
use crate::nodes::{Nodes, Shown};
use std::alloc::{AllocError, Global};
use std::marker::Model;

/// Rows of items. Items are numbered from 0 along the rows, row after row, and each has a value. A number stays the item's for
/// good, also while it is out.
///
/// The item i of the row r is the node i + r + 1: before each row, and after the last, stands a node that is never taken out.
/// Apart from its links, the node i has the value of the item i, and the nodes after these have the number of each row's first
/// item.
#[derive(Drop)]
pub struct Rows {
    block: Block,
    items: usize,
    /// How many items are out.
    depth: usize,
    /// The node of the item that was taken out last; nothing is read of it while none is out.
    top: usize,
}

impl Model for Rows {
    ghost use Rattle.osgi_links.specs.Held.{Held};

    ghost Value = { Held };

    ghost use Rattle.osgi_links.specs.computed.Seen.{IsSound, seen};

    ghost view = { λ a. seen a };

    ghost invariant = { λ a. IsSound a };
}

/// The item behind the node, if it is in the row.
fn next_item(nodes: &Nodes, items: usize, row: usize, node: usize) -> Option<usize>
    requires row { items + row + 1 < length nodes.now.links }
    requires fits { length nodes.now.links < 2 ^ 64 }
    requires inside { IsInside nodes.now.links }
    requires node { node < length nodes.now.links }
    requires behind { row < next_at nodes.now.links node }
    ensures item { result ≡ item_behind nodes.now.links items row node }
{
    let item = nodes.look(node).next - row - 1;
    if item < nodes.look(items + row + 1).value as usize {
        Some(item)
    } else {
        None
    }
}

impl Rows {
    /// A row for each list, with an item for each of its values, in order; none is out. All nodes stand in one block, which is
    /// the only memory that is taken. There is none also where the block would have 2^63 bytes or more.
    pub fn new(alloc: Global, lists: &[Vec<u64>]) -> Result<Rows, AllocError>
        ensures rows { IfOk result (λ rows. rows ≡ new_rows (contents lists.now)) }
        ensures count { IfOk result (λ rows. length rows.rows ≡ length lists.now) }
    {
        let Some((items, count)) = counts(lists) else {
            return Err(AllocError);
        };
        let Some(mut block) = Block::new(alloc, count) else {
            return Err(AllocError);
        };
        let first = push_values(&mut block.nodes, lists);
        push_bounds(&mut block.nodes, first, lists);
        Ok(Rows {
            block,
            items,
            depth: 0,
            top: 0,
        })
    }

    /// The first item of the row that is not out; none where all of them are. Rows are counted from 0.
    pub fn first(&self, row: usize) -> Option<usize>
        requires row { row < length self.now.rows }
        ensures first { result ≡ first_of (linked self.now row) }
        ensures item { IfSome result (λ x. IsTrue (has (linked self.now row) x)
            × (x < length self.now.values)) }
    {
        let bound = self.block.nodes.look(self.items + row).value as usize;
        next_item(&self.block.nodes, self.items, row, bound + row)
    }

    /// The item that comes after this one in its row, of those that are not out; none where this one is the last.
    pub fn next(&self, row: usize, item: usize) -> Option<usize>
        requires item { IsTrue (has (linked self.now row) item) }
        ensures next { result ≡ after item (linked self.now row) }
        ensures item { IfSome result (λ x. IsTrue (has (linked self.now row) x)
            × (x < length self.now.values)) }
    {
        next_item(&self.block.nodes, self.items, row, item + row + 1)
    }

    /// The item's value, also of one that is out.
    pub fn value(&self, item: usize) -> u64
        requires item { item < length self.now.values }
        ensures value { result ≡ slice_index self.now.values item }
    {
        self.block.nodes.look(item).value
    }

    /// Takes the item out of its row.
    pub fn unlink(&mut self, row: usize, item: usize)
        requires item { IsTrue (has (linked self.old row) item) }
        ensures removed { self.new ≡ record self.old { removed = item ∷ self.old.removed } }
        ensures out { linked self.new row ≡ without item (linked self.old row) }
        ensures others { (r : ℕ) → r ≢ row → linked self.new r ≡ linked self.old r }
    {
        let under = self.top;
        let node = item + row + 1;
        self.block.nodes.set_linked(node, false, under, row);
        self.top = node;
        self.depth += 1;
    }

    /// Puts the item that was taken out last back at its old place.
    pub fn relink(&mut self)
        requires one_out { 0 < length self.old.removed }
        ensures removed { self.new ≡ record self.old { removed = drop 1 self.old.removed } }
        ensures undone { (r : ℕ)
            → linked self.old r ≡ without (slice_index self.old.removed 0) (linked self.new r) }
    {
        let node = self.top;
        let Shown { under, row, .. } = self.block.nodes.look(node);
        self.block.nodes.set_linked(node, true, under, row);
        self.top = under;
        self.depth -= 1;
    }
}
