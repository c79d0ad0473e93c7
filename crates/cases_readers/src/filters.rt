//! Filters: read, printed and copied.

use cases_text::{complain, number_of, push_bytes, put, split_word, value_or_fault};
use osgi_filter::{parse, print};
use osgi_model::Filter;
use std::alloc::{AllocError, Global};

/// Adds a complaint, unless a filter is printed as this text.
fn check_printed(
    alloc: Global,
    out: &mut String,
    text: &[u8],
    filter: &Filter,
    complaint: &str,
) -> Result<(), AllocError> {
    let is_same = is_printed_so(alloc, text, filter)?;
    complain(out, is_same, complaint)
}

/// Adds a complaint, unless what was printed of a filter reads as a filter of which the same is printed.
fn check_read_again(alloc: Global, out: &mut String, text: &[u8]) -> Result<(), AllocError> {
    match parse(alloc, text)? {
        Ok(again) => check_printed(alloc, out, text, &again, ", reads otherwise"),
        Err(_) => put(out, ", not read again"),
    }
}

/// Adds a complaint, unless the same is printed of a filter's copy.
fn check_copied(
    alloc: Global,
    out: &mut String,
    text: &[u8],
    filter: &Filter,
) -> Result<(), AllocError> {
    let copy = filter.copy(alloc)?;
    check_printed(alloc, out, text, &copy, ", copy differs")
}

/// Adds what is printed of a filter.
fn add_printed(alloc: Global, out: &mut String, filter: &Filter) -> Result<(), AllocError> {
    let text = print(alloc, filter)?;
    push_bytes(out, text.bytes())?;
    check_read_again(alloc, out, text.bytes())?;
    check_copied(alloc, out, text.bytes(), filter)
}

/// The filter that a text reads as.
pub fn filter(alloc: Global, out: &mut String, text: &[u8]) -> Result<(), AllocError> {
    match value_or_fault(out, parse(alloc, text))? {
        Some(filter) => add_printed(alloc, out, &filter),
        None => Ok(()),
    }
}

/// An item within so many filters of an operator.
fn levels(alloc: Global, operator: &[u8], count: u64) -> Result<Vec<u8>, AllocError> {
    let mut before = Vec::new(alloc);
    let mut after = Vec::new(alloc);
    for _ in 0..count {
        before.push(b'(')?;
        before.extend_from_slice(operator)?;
        after.push(b')')?;
    }
    before.extend_from_slice(b"(a=1)")?;
    before.extend_from_slice(after.as_slice())?;
    Ok(before)
}

/// Whether what is printed of a filter is this text.
fn is_printed_so(alloc: Global, text: &[u8], filter: &Filter) -> Result<bool, AllocError> {
    Ok(print(alloc, filter)?.bytes() == text)
}

/// Adds what is said of a filter's text that is to be printed as it stands.
fn add_printed_so(
    alloc: Global,
    out: &mut String,
    text: &[u8],
    filter: &Filter,
) -> Result<(), AllocError> {
    if is_printed_so(alloc, text, filter)? {
        put(out, "read, and printed as it stands")
    } else {
        put(out, "printed otherwise")
    }
}

/// Adds what a filter's text is read as that is to be printed as it stands.
fn add_nested(alloc: Global, out: &mut String, text: &[u8]) -> Result<(), AllocError> {
    match value_or_fault(out, parse(alloc, text))? {
        Some(filter) => add_printed_so(alloc, out, text, &filter),
        None => Ok(()),
    }
}

/// Whether an item is a filter within so many of an operator.
pub fn nested(alloc: Global, out: &mut String, text: &str) -> Result<(), AllocError> {
    let (operator, count) = split_word(text);
    match number_of(count) {
        Some(count) => add_nested(
            alloc,
            out,
            levels(alloc, operator.as_bytes(), count)?.as_slice(),
        ),
        None => put(out, "no count"),
    }
}
