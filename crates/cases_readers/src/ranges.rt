//! Ranges, and the versions within them.

use cases_text::{
    are_equal, check_copy, check_read, complain, push_bytes, put_shown, split_at, value_or_fault,
};
use osgi_version::{Version, VersionRange};
use std::alloc::{AllocError, Global};

/// Adds what was printed of a range, and a complaint unless it reads as that.
fn add_text(
    alloc: Global,
    out: &mut String,
    text: &[u8],
    range: &VersionRange,
) -> Result<(), AllocError> {
    push_bytes(out, text)?;
    check_read(out, VersionRange::parse(alloc, text), range)
}

/// Adds what is printed of a range.
fn add_printed(alloc: Global, out: &mut String, range: &VersionRange) -> Result<(), AllocError> {
    add_text(alloc, out, range.print(alloc)?.as_slice(), range)?;
    check_copy(alloc, out, range)
}

/// The range that a text reads as.
pub fn range(alloc: Global, out: &mut String, text: &[u8]) -> Result<(), AllocError> {
    match value_or_fault(out, VersionRange::parse(alloc, text))? {
        Some(range) => add_printed(alloc, out, &range),
        None => Ok(()),
    }
}

/// Adds whether a range contains the version that a text reads as.
fn add_contains(
    alloc: Global,
    out: &mut String,
    range: &VersionRange,
    version: &[u8],
) -> Result<(), AllocError> {
    match value_or_fault(out, Version::parse(alloc, version))? {
        Some(version) => put_shown(out, &range.contains(&version)),
        None => Ok(()),
    }
}

/// Whether a range contains a version, which stands after it and a `|`.
pub fn within(alloc: Global, out: &mut String, text: &str) -> Result<(), AllocError> {
    let (range, version) = split_at(text, "|");
    match value_or_fault(out, VersionRange::parse(alloc, range.as_bytes()))? {
        Some(range) => add_contains(alloc, out, &range, version.as_bytes()),
        None => Ok(()),
    }
}

/// Adds whether a range is at least 0.0.0, and a complaint unless it equals the one that is made so only then.
fn add_at_least_zero(out: &mut String, range: &VersionRange) -> Result<(), AllocError> {
    let is_so = range.is_at_least_zero();
    let is_same = are_equal(range, &VersionRange::at_least_zero());
    put_shown(out, &is_so)?;
    complain(out, is_same == is_so, ", made otherwise")
}

/// Whether the range that a text reads as is at least 0.0.0.
pub fn at_least_zero(alloc: Global, out: &mut String, text: &[u8]) -> Result<(), AllocError> {
    match value_or_fault(out, VersionRange::parse(alloc, text))? {
        Some(range) => add_at_least_zero(out, &range),
        None => Ok(()),
    }
}
