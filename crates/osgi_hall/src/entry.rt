//! Entries of a history, and what is kept of a caller that has ended.

use osgi_base::Tag;
use std::collections::LinkedList;

/// One operation that the machine did and recorded: who asked for it, and what was answered.
#[derive(Drop)]
pub struct Entry<O, R> {
    pub tag: Tag,
    pub op: O,
    pub reply: R,
}

/// What the pass of caller 0 knows of a caller whose pass has joined: its number, and the entries of its calls. Only contracts
/// speak of it, and no value of it is made.
pub struct Joined<O, R> {
    pub caller: u32,
    pub own: LinkedList<Entry<O, R>>,
}
