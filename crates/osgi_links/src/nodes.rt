//! The nodes of all rows, in one chain, linked by raw pointers. Here stand all the functions that use pointers.

ghost use Rattle.std.specs.Prelude.{◌≡◌, ℕ, ◌*◌, ◌^◌, ◌<◌, ◌≤◌, ◌++◌, List, [], ◌∷◌, length, IfSome};
ghost use denote.RawPtr.{Ptr};
ghost use Rattle.osgi_links.specs.computed.Chain.{Link, fresh_link, next_at, prev_at, shown_at, with_linked};

use std::alloc::Allocator;
use std::marker::{Model, PhantomData};

/// How many bytes a node takes.
const NODE_BYTES: usize = 48;

/// The bytes of which the place of a node in memory is a multiple.
const NODE_ALIGN: usize = 8;

/// As many nodes as a block can have.
pub(crate) const MOST_NODES: usize = isize::MAX as usize / NODE_BYTES;

/// A node: its neighbours in the chain, its number, the node below it on the stack, its row there, and its value.
pub struct Node {
    prev: *mut Node,
    next: *mut Node,
    number: usize,
    under: usize,
    row: usize,
    value: u64,
}

/// What a look at a node shows.
#[derive(Clone, Copy)]
pub struct Shown {
    pub next: usize,
    pub under: usize,
    pub row: usize,
    pub value: u64,
}

/// The nodes so far, and room for the others, in one block. Contracts see the nodes by numbers (`links`).
pub struct Nodes {
    start: *mut Node,
    ghost links: { List Link },
    ghost room: { ℕ },
    ghost fits: { (length links ≤ room) × (room * 48 < 2 ^ 63) },
}

impl Model for Nodes {
    ghost use Rattle.osgi_links.specs.computed.Ownership.{nodes_own, nodes_lent};

    ghost also_owns = { λ n. nodes_own n.start n.links n.room };

    ghost also_shares = { λ n _ κ. nodes_lent n.start n.links κ };
}

/// The right to give the block back. It takes no space.
pub struct Lease<A: Allocator> {
    marker: PhantomData<A>,
    ghost alloc: { A },
    ghost at: { Ptr },
    ghost room: { ℕ },
}

impl<A: Allocator> Model for Lease<A> {
    ghost use Rattle.osgi_links.specs.computed.Blocks.{block_type};

    ghost also_owns = { λ l. A.dealloc_token l.alloc (block_type l.room) l.at };
}

impl Nodes {
    /// Room for this many nodes, in a block of the allocator's; none where it has no memory.
    pub(crate) fn new<A: Allocator>(alloc: &A, room: usize) -> Option<(Nodes, Lease<A>)>
        requires fits { room * 48 < 2 ^ 63 }
        ensures made { IfSome result (λ n. (n.0.links ≡ []) × (n.0.room ≡ room)
            × (n.1.alloc ≡ alloc.now) × (n.1.at ≡ n.0.start) × (n.1.room ≡ room)) }
    {
        match alloc.allocate(room * NODE_BYTES, NODE_ALIGN) {
            Ok(block) => {
                let start = block as *mut Node;
                let marker = PhantomData;
                Some((Nodes { start }, Lease { marker }))
            }
            Err(_) => None,
        }
    }

    /// Gives the block back to its allocator.
    pub(crate) fn free<A: Allocator>(self, lease: Lease<A>, alloc: &A, room: usize)
        requires same { (lease.alloc ≡ alloc.now) × (lease.at ≡ self.start) × (lease.room ≡ room)
            × (self.room ≡ room) }
    {
        let Nodes { start } = self;
        let Lease { marker: _ } = lease;
        unsafe { alloc.deallocate(start as *mut u8, room * NODE_BYTES, NODE_ALIGN) }
    }

    /// Adds the node `at`, the first that is not there yet. Its neighbours may be nodes that come later.
    pub(crate) fn push(&mut self, at: usize, prev: usize, next: usize, value: u64)
        requires at { at ≡ length self.old.links }
        requires room { at < self.old.room }
        requires before { prev < self.old.room }
        requires behind { next < self.old.room }
        ensures pushed { (self.new.links ≡ self.old.links ++ fresh_link prev next value ∷ [])
            × (self.new.start ≡ self.old.start) × (self.new.room ≡ self.old.room) }
    {
        unsafe {
            self.start.add(at).write(Node {
                prev: self.start.add(prev),
                next: self.start.add(next),
                number: at,
                under: 0,
                row: 0,
                value,
            });
        }
    }

    /// What the node shows.
    pub(crate) fn look(&self, at: usize) -> Shown
        requires inside { at < length self.now.links }
        requires behind { next_at self.now.links at < length self.now.links }
        ensures shown { result ≡ shown_at self.now.links at }
    {
        unsafe {
            let node = self.start.add(at);
            let next = (*node).next;
            Shown {
                next: (*next).number,
                under: (*node).under,
                row: (*node).row,
                value: (*node).value,
            }
        }
    }

    /// Takes the node out from between its neighbours, or puts it back there, and writes its place on the stack.
    pub(crate) fn set_linked(&mut self, at: usize, is_linked: bool, under: usize, row: usize)
        requires inside { at < length self.old.links }
        requires before { prev_at self.old.links at < length self.old.links }
        requires behind { next_at self.old.links at < length self.old.links }
        ensures nodes { (self.new.links ≡ with_linked self.old.links at is_linked under row)
            × (self.new.start ≡ self.old.start) × (self.new.room ≡ self.old.room) }
    {
        unsafe {
            let node = self.start.add(at);
            let prev = (*node).prev;
            let next = (*node).next;
            if is_linked {
                (*prev).next = node;
                (*next).prev = node;
            } else {
                (*prev).next = next;
                (*next).prev = prev;
            }
            (*node).under = under;
            (*node).row = row;
        }
    }
}
