//! A line's answer, by its first word.

use crate::attributes::take;
use crate::matching::{is_match, passes};
use crate::satisfying::satisfied;
use crate::scripts::{script, statements};
use crate::system::system;
use crate::values::{long, named, value};
use cases_text::{bytes_of, put, split_word};
use osgi_filter::Case;
use osgi_model::Attributes;
use std::alloc::{AllocError, Global};

/// Adds what is answered to a line. The attributes are those that the lines so far leave for the ones below them.
pub fn add_answer(
    alloc: Global,
    out: &mut String,
    attributes: &mut Attributes,
    line: &str,
) -> Result<(), AllocError> {
    let (word, text) = split_word(line);
    if word == "attributes" {
        take(alloc, out, attributes, text)
    } else if word == "match-fold" {
        is_match(alloc, out, attributes, Case::Fold, text)
    } else if word == "match-keep" {
        is_match(alloc, out, attributes, Case::Keep, text)
    } else if word == "value" {
        value(alloc, out, text)
    } else if word == "statements" {
        statements(alloc, out, text)
    } else if word == "passes" {
        passes(alloc, out, text)
    } else if word == "satisfies" {
        satisfied(alloc, out, text)
    } else if word == "system" {
        system(alloc, out)
    } else {
        add_read(alloc, out, word, bytes_of(alloc, text)?.as_slice())
    }
}

/// Adds what a whole text is read as.
fn add_read(alloc: Global, out: &mut String, word: &str, text: &[u8]) -> Result<(), AllocError> {
    if word == "type" {
        named(out, text)
    } else if word == "long" {
        long(out, text)
    } else if word == "script" {
        script(alloc, out, text)
    } else {
        put(out, "no such word")
    }
}
