//! Parts of answers, added to a text one after another.
//!
//! What an answer shows is compared when the programs run, so these functions promise nothing of it, and what is made of them is
//! cheap to prove.

use crate::{complain, push_bytes};
use osgi_base::{Copied, Text};
use std::alloc::{AllocError, Global};
use std::fmt::{Debug, Display, Write};

/// The first word of a text, and what stands after the space that follows it.
pub fn split_word(text: &str) -> (&str, &str) {
    text.split_once(' ').unwrap_or((text, ""))
}

/// What stands before the first separator, and what stands after it; nothing where there is none.
pub fn split_at<'a>(text: &'a str, separator: &str) -> (&'a str, &'a str) {
    text.split_once(separator).unwrap_or((text, ""))
}

/// The number that a word writes.
pub fn number_of(word: &str) -> Option<u64> {
    word.parse::<u64>().ok()
}

/// The text of a word.
pub fn text_of(alloc: Global, word: &str) -> Result<Text, AllocError> {
    Text::of(alloc, word.as_bytes())
}

/// Adds a part as it stands.
pub fn put(out: &mut String, part: &str) -> Result<(), AllocError> {
    out.push_str(part)
}

/// Adds a text, as a row writes its bytes.
pub fn put_text(out: &mut String, text: &Text) -> Result<(), AllocError> {
    push_bytes(out, text.bytes())
}

/// Adds bytes in quotation marks, as a row writes them.
pub fn put_quoted(out: &mut String, bytes: &[u8]) -> Result<(), AllocError> {
    put(out, "\"")?;
    push_bytes(out, bytes)?;
    put(out, "\"")
}

/// Adds bytes in brackets, as a row writes them.
pub fn put_bracketed(out: &mut String, bytes: &[u8]) -> Result<(), AllocError> {
    put(out, "[")?;
    push_bytes(out, bytes)?;
    put(out, "]")
}

/// Adds a value as `{}` prints it.
pub fn put_shown<T: Display>(out: &mut String, value: &T) -> Result<(), AllocError> {
    write!(out, "{value}")
}

/// Adds a value as `{:?}` prints it.
pub fn put_debug<T: Debug>(out: &mut String, value: &T) -> Result<(), AllocError> {
    write!(out, "{value:?}")
}

/// Whether two values are equal.
pub fn are_equal<T: PartialEq>(first: &T, second: &T) -> bool {
    first == second
}

/// Whether a value equals its copy.
pub fn is_as_its_copy<T: Copied + PartialEq>(alloc: Global, value: &T) -> Result<bool, AllocError> {
    Ok(value.copied(alloc)? == *value)
}

/// Adds a complaint, unless a value equals its copy.
pub fn check_copy<T: Copied + PartialEq>(
    alloc: Global,
    out: &mut String,
    value: &T,
) -> Result<(), AllocError> {
    let is_same = is_as_its_copy(alloc, value)?;
    complain(out, is_same, ", copy differs")
}
