//! What the seats at a hall's table know. Only contracts speak of these types, and no value of them is made. Each type parameter
//! stands in a list, since a type that a table is made over has to have a size.

use crate::entry::{Entry, Joined};
use std::collections::LinkedList;

/// How far a caller is with its turn. Places are counted without end, as tickets are drawn.
pub enum Stage<O, R> {
    Idle,
    /// It has drawn this place.
    Waits(u64),
    /// It is served at this place and has taken the machine, which had these entries.
    Has(u64, LinkedList<Entry<O, R>>),
    /// It is served at this place and has given the machine back.
    Done(u64),
}

/// What a caller knows.
pub struct Known<O, R, Z> {
    pub caller: u32,
    /// The machine's setting, as a list of one.
    pub setting: LinkedList<Z>,
    pub stage: Stage<O, R>,
    pub seen: LinkedList<Entry<O, R>>,
    pub own: LinkedList<Entry<O, R>>,
    /// The lists that its last join put together, until it has looked at the table.
    pub notes: LinkedList<LinkedList<Entry<O, R>>>,
    pub made: u32,
    pub out: u32,
    pub ended: LinkedList<Joined<O, R>>,
}

/// What a seat knows: nothing once it has joined another.
pub enum View<O, R, Z> {
    Spent,
    Live(Known<O, R, Z>),
}
