//! What was found so far, in order.

ghost use Rattle.std.specs.Prelude.{◌≡◌, ◌↔◌, ◌⊎◌, ◌++◌, ◌∷◌, [], length, Contains, IfOk, OnErr, OnOk, IsTrue};
ghost use Rattle.std.specs.BTreeSet.{contains};
ghost use Rattle.std.specs.Bool.{Decides};
ghost use Rattle.std.specs.Ordering.{eq_by_cmp};
ghost use Rattle.osgi_space_sources.specs.computed.Adds.{Adds};
ghost use Rattle.osgi_space_sources.specs.computed.Collected.{Has, IsCollected};

use std::alloc::{AllocError, Global};
use std::collections::BTreeSet;
use std::marker::Model;

/// A value that ties with itself alone.
pub trait Node: Copy + Ord {
    ghost exact: { (a b : Self) → Decides (eq_by_cmp Self.Ord.cmp a b) (a ≡ b) };
}

/// How many values are looked through one after another.
pub(crate) const FEW: usize = 16;

/// Values in the order in which they were found. Once they are more than a few, a set has them too. Contracts see the list of the values.
#[derive(Drop)]
pub struct Found<T: Node> {
    items: Vec<T>,
    set: BTreeSet<T>,
}

impl<T: Node> Model for Found<T> {
    ghost use Rattle.std.specs.Prelude.{List};
    ghost use Rattle.osgi_space_sources.specs.computed.Collected.{IsCollected};

    ghost Value = { List T };

    ghost view = { λ f. f.items.items };

    ghost invariant = { λ f. IsCollected T.cmp f.set f.items.items };
}

impl<T: Node> Found<T> {
    pub fn new(alloc: Global) -> Found<T>
        ensures empty { result ≡ [] }
    {
        Found {
            items: Vec::new(alloc),
            set: BTreeSet::new(alloc),
        }
    }

    /// These values, in this order; one may stand there several times.
    pub fn of(alloc: Global, items: Vec<T>) -> Result<Found<T>, AllocError>
        ensures items { IfOk result (λ found. found ≡ items.items) }
    {
        let mut set = BTreeSet::new(alloc);
        if items.len() > FEW {
            put_all(&mut set, items.as_slice())?;
        }
        Ok(Found { items, set })
    }

    pub fn len(&self) -> usize
        ensures len { result ≡ length self.now }
    {
        self.items.len()
    }

    pub fn items(&self) -> &[T]
        ensures items { result.now ≡ self.now }
    {
        self.items.as_slice()
    }

    pub fn into_items(self) -> Vec<T>
        ensures items { result.items ≡ self }
    {
        let Found { items, set: _ } = self;
        items
    }

    pub fn has(&self, node: T) -> bool
        ensures has { IsTrue result ↔ Contains self.now node }
    {
        if self.items.len() <= FEW {
            return is_listed(self.items.as_slice(), node);
        }
        self.set.contains(&node)
    }

    /// Adds a value, unless it is there. If memory runs out, nothing changes.
    pub fn add(&mut self, node: T) -> Result<(), AllocError>
        ensures added { OnOk result (Adds (λ x. x ≡ node) self.old self.new) }
        ensures unchanged { OnErr result (self.new ≡ self.old) }
    {
        if self.has(node) {
            return Ok(());
        }
        self.items.reserve(1)?;
        note(&mut self.set, self.items.as_slice(), node)?;
        self.items.push(node)?;
        Ok(())
    }
}

/// Whether the list has the value.
pub(crate) fn is_listed<T: Node>(list: &[T], node: T) -> bool
    ensures listed { IsTrue result ↔ Contains list.now node }
{
    for item in list {
        if *item == node {
            return true;
        }
    }
    false
}

/// Puts a value into the set of the list that the value is about to join, if they are more than a few then.
fn note<T: Node>(set: &mut BTreeSet<T>, list: &[T], node: T) -> Result<(), AllocError>
    requires collected { IsCollected T.cmp set.old list.now }
    ensures noted { OnOk result (IsCollected T.cmp set.new (list.now ++ node ∷ [])) }
    ensures kept { OnErr result (IsCollected T.cmp set.new list.now) }
{
    if list.len() < FEW {
        return Ok(());
    }
    if list.len() == FEW {
        return Ok(fill(set, list, node)?);
    }
    set.insert(node)?;
    Ok(())
}

/// Makes the set that of the list and of a value more.
fn fill<T: Node>(set: &mut BTreeSet<T>, list: &[T], node: T) -> Result<(), AllocError>
    ensures filled { OnOk result (Has T.cmp set.new (Contains (list.now ++ node ∷ []))) }
{
    set.clear();
    put_all(set, list)?;
    set.insert(node)?;
    Ok(())
}

/// Puts the values of the list into the set.
fn put_all<T: Node>(set: &mut BTreeSet<T>, list: &[T]) -> Result<(), AllocError>
    ensures put { OnOk result (Has T.cmp set.new (λ x. IsTrue (contains T.cmp set.old x)
        ⊎ Contains list.now x)) }
{
    for item in list {
        set.insert(*item)?;
    }
    Ok(())
}

impl Node for u32 {
    ghost use Rattle.osgi_space_sources.specs.computed.Exact.{exact_number};

    ghost exact = { exact_number };
}
