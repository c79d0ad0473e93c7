//! Filters: read from their texts, exactly by their grammar, printed, and matched against attributes.
//!
//! `filter_text` has `parse`, `printing` has `print`, `matching` has `matches`. A text is read from left to right: `scan` has
//! bytes, white space and names, `values` the values of items, `items` whole items, `filters` what is made of them. Where
//! they stop, the fault is the number of bytes left there; `fault` says why a whole text was not read. `passing` has what an
//! item says of a value, with `pieces`, `approx`, `ordered`, and for lists `wanted` and `spelled` below it; `named` finds attributes by name, by `name_order` where they are many,
//! and `case` says how names are compared.
#![tactic(auto)]

mod approx;
mod case;
mod fault;
mod filter_text;
mod filters;
mod items;
mod matching;
mod name_order;
mod named;
mod ordered;
mod passing;
mod pieces;
mod printing;
mod scan;
mod spelled;
mod values;
mod wanted;

pub use case::Case;
pub use fault::FilterFault;
pub use filter_text::parse;
pub use matching::matches;
pub use printing::print;
