//! The lists of a case, read.

use cases_text::number_of;
use std::alloc::{AllocError, Global};

/// The values of a word, between which commas stand; none where it is `-`.
fn read_list(alloc: Global, word: &str) -> Result<Vec<u64>, AllocError> {
    let mut list = Vec::new(alloc);
    for part in word.split(",") {
        if let Some(value) = number_of(part) {
            list.push(value)?;
        }
    }
    Ok(list)
}

/// The lists of words, between which spaces stand; none where there is no word.
pub fn read_lists(alloc: Global, words: &str) -> Result<Vec<Vec<u64>>, AllocError> {
    let mut lists = Vec::new(alloc);
    for word in words.split(" ") {
        if !word.is_empty() {
            lists.push(read_list(alloc, word)?)?;
        }
    }
    Ok(lists)
}
