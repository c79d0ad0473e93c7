//! The qualifiers of versions.

use cases_text::{check_copy, complain, push_bytes, put, value_or_fault};
use osgi_version::{Qualifier, Version};
use std::alloc::{AllocError, Global};

/// Whether what was made equals a value.
fn is_made<T: PartialEq + Drop>(
    made: Result<T, AllocError>,
    value: &T,
) -> Result<bool, AllocError> {
    Ok(made? == *value)
}

/// Whether a value is above what was made.
fn is_above<T: PartialOrd + Drop>(
    made: Result<T, AllocError>,
    value: &T,
) -> Result<bool, AllocError> {
    Ok(made? < *value)
}

/// Adds a complaint, unless a qualifier is that of its bytes.
fn check_bytes(alloc: Global, out: &mut String, qualifier: &Qualifier) -> Result<(), AllocError> {
    let is_same = is_made(Qualifier::of(alloc, qualifier.bytes()), qualifier)?;
    complain(out, is_same, ", its bytes make another")
}

/// Adds a complaint, unless a qualifier is above the empty one just if it has bytes.
fn check_order(alloc: Global, out: &mut String, qualifier: &Qualifier) -> Result<(), AllocError> {
    let is_above_empty = is_above(Qualifier::of(alloc, b""), qualifier)?;
    let is_empty = qualifier.bytes().is_empty();
    complain(out, is_above_empty != is_empty, ", the order differs")
}

fn add_qualifier(alloc: Global, out: &mut String, qualifier: &Qualifier) -> Result<(), AllocError> {
    match qualifier.bytes() {
        [] => put(out, "none")?,
        bytes => push_bytes(out, bytes)?,
    }
    check_bytes(alloc, out, qualifier)?;
    check_order(alloc, out, qualifier)?;
    check_copy(alloc, out, qualifier)
}

/// The qualifier of the version that a text reads as.
pub fn qualifier(alloc: Global, out: &mut String, text: &[u8]) -> Result<(), AllocError> {
    match value_or_fault(out, Version::parse(alloc, text))? {
        Some(version) => add_qualifier(alloc, out, &version.qualifier),
        None => Ok(()),
    }
}
