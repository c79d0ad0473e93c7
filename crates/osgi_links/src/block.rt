//! The one block, which goes back to its allocator at the drop.

ghost use Rattle.std.specs.Prelude.{◌≡◌, ◌*◌, ◌^◌, ◌<◌, [], IfSome};

use crate::nodes::{Lease, Nodes};
use std::alloc::Global;

/// The nodes with the right to free their block.
pub struct Block {
    pub(crate) nodes: Nodes,
    lease: Lease<Global>,
    alloc: Global,
    room: usize,
    ghost leased: { (lease.alloc ≡ alloc) × (lease.at ≡ nodes.start) × (lease.room ≡ room)
        × (nodes.room ≡ room) },
}

impl Block {
    /// A block with room for this many nodes; none where there is no memory.
    pub(crate) fn new(alloc: Global, room: usize) -> Option<Block>
        requires fits { room * 48 < 2 ^ 63 }
        ensures nodes { IfSome result (λ b. (b.nodes.links ≡ []) × (b.nodes.room ≡ room)) }
    {
        let (nodes, lease) = Nodes::new(&alloc, room)?;
        Some(Block {
            nodes,
            lease,
            alloc,
            room,
        })
    }
}

impl Drop for Block {
    fn drop(self) {
        let Block {
            nodes,
            lease,
            alloc,
            room,
        } = self;
        nodes.free(lease, &alloc, room);
    }
}
