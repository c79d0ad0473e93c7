//! How the nodes of rows are made: one for each item, then one with the number of each row's first item, and a last one.

ghost use Rattle.std.specs.Prelude.{◌≡◌, ◌+◌, ◌*◌, ◌^◌, ◌<◌, ◌≤◌, ◌++◌, [], length, IfSome};
ghost use Rattle.std.specs.List.{concat};
ghost use Rattle.osgi_links.specs.Held.{contents};
ghost use Rattle.osgi_links.specs.computed.Chain.{values_of};
ghost use Rattle.osgi_links.specs.computed.Straight.{bounds_from, IsStraight, IsWhole};

use crate::nodes::{MOST_NODES, Nodes};

/// How many items there are, if the number fits.
fn total(lists: &[Vec<u64>]) -> Option<usize>
    ensures items { IfSome result (λ n. n ≡ length (concat (contents lists.now))) }
{
    let mut items: usize = 0;
    for list in lists {
        items = items.checked_add(list.len())?;
    }
    Some(items)
}

/// How many items there are, and how many nodes, if a block of memory can have so many.
pub(crate) fn counts(lists: &[Vec<u64>]) -> Option<(usize, usize)>
    ensures items { IfSome result (λ n. n.0 ≡ length (concat (contents lists.now))) }
    ensures nodes { IfSome result (λ n. n.1 ≡ n.0 + length lists.now + 1) }
    ensures fits { IfSome result (λ n. n.1 * 48 < 2 ^ 63) }
{
    let items = total(lists)?;
    let count = items.checked_add(lists.len())?.checked_add(1)?;
    if count > MOST_NODES {
        return None;
    }
    Some((items, count))
}

/// Adds a node for each value, and returns the number of nodes.
fn push_list(nodes: &mut Nodes, first: usize, list: &[u64]) -> usize
    requires first { first ≡ length nodes.old.links }
    requires room { first + length list.now < nodes.old.room }
    requires fits { first + length list.now < 2 ^ 64 }
    requires straight { IsStraight nodes.old.links }
    ensures values { values_of nodes.new.links ≡ values_of nodes.old.links ++ list.now }
    ensures straight { IsStraight nodes.new.links }
    ensures block { (nodes.new.start ≡ nodes.old.start) × (nodes.new.room ≡ nodes.old.room) }
    ensures count { (result ≡ first + length list.now) × (result ≡ length nodes.new.links) }
{
    let mut at = first;
    for value in list {
        nodes.push(at, at.saturating_sub(1), at + 1, *value);
        at += 1;
    }
    at
}

/// Adds a node for each value of the lists, and returns the number of nodes.
pub(crate) fn push_values(nodes: &mut Nodes, lists: &[Vec<u64>]) -> usize
    requires empty { nodes.old.links ≡ [] }
    requires room { length (concat (contents lists.now)) < nodes.old.room }
    requires fits { length (concat (contents lists.now)) < 2 ^ 64 }
    ensures values { values_of nodes.new.links ≡ concat (contents lists.now) }
    ensures straight { IsStraight nodes.new.links }
    ensures block { (nodes.new.start ≡ nodes.old.start) × (nodes.new.room ≡ nodes.old.room) }
    ensures count { (result ≡ length (concat (contents lists.now)))
        × (result ≡ length nodes.new.links) }
{
    let mut at = 0;
    for list in lists {
        at = push_list(nodes, at, list);
    }
    at
}

/// Adds a node with the number of each list's first item, and one with the number of all items.
pub(crate) fn push_bounds(nodes: &mut Nodes, first: usize, lists: &[Vec<u64>])
    requires first { first ≡ length nodes.old.links }
    requires room { first + length lists.now + 1 ≤ nodes.old.room }
    requires fits { (first + length lists.now + 1 < 2 ^ 64)
        × (length (concat (contents lists.now)) < 2 ^ 64) }
    requires straight { IsStraight nodes.old.links }
    ensures values { values_of nodes.new.links
        ≡ values_of nodes.old.links ++ bounds_from 0 (contents lists.now) }
    ensures whole { IsWhole nodes.new.links }
    ensures block { (nodes.new.start ≡ nodes.old.start) × (nodes.new.room ≡ nodes.old.room) }
    ensures count { length nodes.new.links ≡ first + length lists.now + 1 }
{
    let mut at = first;
    let mut bound: usize = 0;
    for list in lists {
        nodes.push(at, at.saturating_sub(1), at + 1, bound as u64);
        at += 1;
        bound += list.len();
    }
    nodes.push(at, at.saturating_sub(1), at, bound as u64);
}
