//! What lines of the console and of scripts share: how they are cut into words, and what a word says.
#![tactic(auto)]

mod ids;
mod lines;
mod names;
pub mod properties;
mod values;
mod words;

pub use ids::{bundle_id, id};
pub use lines::{says_nothing, split_line};
pub use names::{bundle_name, class, classes, name};
pub use words::{only_word, skip_spaces, split_word, split_words};
