//! A slow search for the first good word of a problem: over all words, also those that are hopeless. Tests compare the resolver
//! with it.
#![tactic(auto)]

mod all_words;
mod seen;

pub use all_words::search_all_words;
