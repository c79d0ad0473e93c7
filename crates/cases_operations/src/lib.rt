//! What the rows of the programs on the machine and on the registry have in common: what a row asks for, the entry that it
//! comes to, and how an answer shows that.
#![tactic(auto)]

pub mod asked;
mod entries;
mod shown;
mod words;

pub use entries::entry_of;
pub use shown::{add_checked, add_shown, are_shown_alike};
pub use words::{number, split_bundle};
