//! Entries made of what was answered.

use osgi_base::Tag;
use osgi_ops::{Entry, Op, Reply};
use std::alloc::AllocError;

/// Two values, once both are made.
fn both<T: Drop, U: Drop>(
    first: Result<T, AllocError>,
    second: Result<U, AllocError>,
) -> Result<(T, U), AllocError> {
    let first = first?;
    let second = second?;
    Ok((first, second))
}

/// The entry of an operation and what was answered to it.
pub fn entry_of(
    tag: Tag,
    op: Result<Op, AllocError>,
    reply: Result<Reply, AllocError>,
) -> Result<Entry, AllocError> {
    let (op, reply) = both(op, reply)?;
    Ok(Entry { tag, op, reply })
}
