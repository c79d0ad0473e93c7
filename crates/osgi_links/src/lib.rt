//! Rows of items, from which one item at a time is taken out, and which go back in the opposite order. They stand in one block
//! of memory, as nodes that lead to each other.
#![tactic(auto)]

mod block;
mod building;
mod nodes;
mod rows;

pub use rows::Rows;
// Contracts of other crates can name rows only if the types of what rows are made of can be named.
#[doc(hidden)]
pub use block::Block;
#[doc(hidden)]
pub use nodes::{Lease, Node, Nodes, Shown};
