//! Versions and their order.

use cases_text::{check_copy, check_read, push_bytes, put, split_at, value_or_fault};
use osgi_version::Version;
use std::alloc::{AllocError, Global};
use std::cmp::Ordering;

/// Adds what was printed of a version, and a complaint unless it reads as that.
fn add_text(
    alloc: Global,
    out: &mut String,
    text: &[u8],
    version: &Version,
) -> Result<(), AllocError> {
    push_bytes(out, text)?;
    check_read(out, Version::parse(alloc, text), version)
}

/// Adds what is printed of a version.
fn add_printed(alloc: Global, out: &mut String, version: &Version) -> Result<(), AllocError> {
    add_text(alloc, out, version.print(alloc)?.as_slice(), version)?;
    check_copy(alloc, out, version)
}

/// The version that a text reads as.
pub fn version(alloc: Global, out: &mut String, text: &[u8]) -> Result<(), AllocError> {
    match value_or_fault(out, Version::parse(alloc, text))? {
        Some(version) => add_printed(alloc, out, &version),
        None => Ok(()),
    }
}

/// Adds the version of the same numbers.
fn add_numbered(alloc: Global, out: &mut String, version: &Version) -> Result<(), AllocError> {
    let version = Version::numbered(version.major, version.minor, version.micro);
    add_printed(alloc, out, &version)
}

/// The version of the numbers that a text reads as.
pub fn numbered(alloc: Global, out: &mut String, text: &[u8]) -> Result<(), AllocError> {
    match value_or_fault(out, Version::parse(alloc, text))? {
        Some(version) => add_numbered(alloc, out, &version),
        None => Ok(()),
    }
}

/// The name of an order, by which two values have to compare in each way that there is.
fn order_name<T: Ord>(first: &T, second: &T, order: Ordering) -> &'static str {
    let is_agreed = first.cmp(second) == order
        && (first == second) == order.is_eq()
        && (first < second) == order.is_lt();
    match order {
        _ if !is_agreed => "the comparisons differ",
        Ordering::Less => "less",
        Ordering::Equal => "equal",
        Ordering::Greater => "greater",
    }
}

/// How a version stands to a text, of which it is said to be ordered so.
fn order_to(
    alloc: Global,
    first: &Version,
    text: &[u8],
    order: Option<Ordering>,
) -> Result<&'static str, AllocError> {
    Ok(match (order, Version::parse(alloc, text)?) {
        (Some(order), Ok(second)) => order_name(first, &second, order),
        (None, Err(_)) => "no version",
        _ => "the comparisons differ",
    })
}

/// Adds how a version stands to a text.
fn add_order(
    alloc: Global,
    out: &mut String,
    first: &Version,
    text: &[u8],
) -> Result<(), AllocError> {
    put(out, order_to(alloc, first, text, first.compare_text(text))?)
}

/// How the first of two versions, with a `|` between, stands to the second.
pub fn order(alloc: Global, out: &mut String, text: &str) -> Result<(), AllocError> {
    let (first, second) = split_at(text, "|");
    match value_or_fault(out, Version::parse(alloc, first.as_bytes()))? {
        Some(first) => add_order(alloc, out, &first, second.as_bytes()),
        None => Ok(()),
    }
}
