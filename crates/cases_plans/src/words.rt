//! The words of a case.

use osgi_base::{BundleId, List, Text};
use std::alloc::{AllocError, Global};

/// The number that a word writes; 0 where it writes none.
pub fn number(word: &str) -> u32 {
    word.parse::<u32>().unwrap_or(0)
}

/// The number of the word at a place, counted from 0; 0 where there is none.
pub fn number_at(text: &str, place: usize) -> u32 {
    text.split(' ').nth(place).map_or(0, number)
}

/// A level.
pub fn level(number: u32) -> u8 {
    u8::try_from(number).unwrap_or(u8::MAX)
}

/// The last word, as a text.
pub fn last_text(alloc: Global, text: &str) -> Result<Text, AllocError> {
    let (_, word) = text.rsplit_once(' ').unwrap_or(("", text));
    Text::of(alloc, word.as_bytes())
}

/// The bundles whose numbers the words after the first write.
pub fn bundles(alloc: Global, text: &str) -> Result<List<BundleId>, AllocError> {
    let mut bundles = List::new(alloc)?;
    for word in text.split(' ').skip(1) {
        bundles.push(BundleId(number(word)))?;
    }
    Ok(bundles)
}
