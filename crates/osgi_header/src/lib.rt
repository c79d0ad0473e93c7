//! The text of a manifest: the headers of its main section, and the clauses of a header's value.
#![tactic(auto)]

mod blanks;
mod clause;
mod fault;
mod header;
mod header_value;
mod lines;
mod name_list;
mod parameters;
mod parts;
mod repeated;
mod unfolding;

pub use clause::{Clause, ClauseAt, Pair, ReadClauses, Typed};
pub use fault::{HeaderFault, HeaderKind};
pub use header::Header;
pub use header_value::{clauses, read_clauses};
pub use name_list::names;
pub use unfolding::unfold;
