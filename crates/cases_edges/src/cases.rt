//! Cases by their first word.

use crate::{shelves, sinks, sources};
use cases_text::{put, put_shown, split_word};
use std::alloc::{AllocError, Global};

/// The number that a word writes, 0 where it writes none.
pub fn number(word: &str) -> u64 {
    word.parse::<u64>().unwrap_or(0)
}

/// The number that a line begins with, and what stands after the space that follows it.
pub fn split_number(line: &str) -> (u64, &str) {
    let (word, rest) = split_word(line);
    (number(word), rest)
}

/// The two numbers that a line begins with, and what stands after them.
pub fn split_numbers(line: &str) -> (u64, u64, &str) {
    let (first, rest) = split_number(line);
    let (second, rest) = split_number(rest);
    (first, second, rest)
}

/// A text of bytes that are letters.
pub fn letters(bytes: &[u8]) -> &str {
    str::from_utf8(bytes).unwrap_or("?")
}

/// Adds letters between quotation marks.
pub fn put_letters(out: &mut String, bytes: &[u8]) -> Result<(), AllocError> {
    put(out, "\"")?;
    put(out, letters(bytes))?;
    put(out, "\"")
}

/// Adds the number of faults.
pub fn put_faults(out: &mut String, faults: u64) -> Result<(), AllocError> {
    put(out, "faults ")?;
    put_shown(out, &faults)
}

/// What a case tries.
#[derive(Clone, Copy)]
enum Case {
    StdSink,
    VecSink,
    MemorySink,
    StdSource,
    SliceSource,
    MemorySource,
    LongSource,
    Shelf,
    Folder,
}

/// The cases by their first words: a table, since a chain of tests is dear to prove.
const CASES: [(&str, Case); 9] = [
    ("std-sink", Case::StdSink),
    ("vec-sink", Case::VecSink),
    ("memory-sink", Case::MemorySink),
    ("std-source", Case::StdSource),
    ("slice-source", Case::SliceSource),
    ("memory-source", Case::MemorySource),
    ("long-source", Case::LongSource),
    ("shelf", Case::Shelf),
    ("folder", Case::Folder),
];

/// The case that a line's first word names.
fn case_of(word: &str) -> Option<Case> {
    for (name, case) in CASES {
        if name == word {
            return Some(case);
        }
    }
    None
}

/// Adds the answer to a line that is a case.
pub fn add_answer(alloc: Global, out: &mut String, line: &str) -> Result<(), AllocError> {
    let (word, rest) = split_word(line);
    match case_of(word) {
        Some(Case::StdSink) => sinks::std_sink(alloc, out, rest),
        Some(Case::VecSink) => sinks::vec_sink(alloc, out, rest),
        Some(Case::MemorySink) => sinks::memory_sink(alloc, out, rest),
        Some(Case::StdSource) => sources::std_source(alloc, out, rest),
        Some(Case::SliceSource) => sources::slice_source(alloc, out, rest),
        Some(Case::MemorySource) => sources::memory_source(alloc, out, rest),
        Some(Case::LongSource) => sources::long_source(alloc, out, rest),
        Some(Case::Shelf) => shelves::read_each(alloc, out, rest),
        Some(Case::Folder) => shelves::read_folder(alloc, out, rest),
        None => put(out, "not a case"),
    }
}
