//! Filters matched against attributes.

use crate::attributes::attributes_of;
use cases_text::{bytes_of, put, put_shown, split_at, value_or_fault};
use osgi_filter::{Case, matches, parse};
use osgi_model::Attributes;
use std::alloc::{AllocError, Global};

/// Whether the filter that bytes read as matches the attributes.
fn matched(
    alloc: Global,
    out: &mut String,
    attributes: &Attributes,
    case: Case,
    filter: &[u8],
) -> Result<(), AllocError> {
    match value_or_fault(out, parse(alloc, filter))? {
        Some(filter) => put_shown(out, &matches(&filter, attributes, case)),
        None => Ok(()),
    }
}

/// Whether the filter that a text stands for matches the attributes.
pub fn is_match(
    alloc: Global,
    out: &mut String,
    attributes: &Attributes,
    case: Case,
    text: &str,
) -> Result<(), AllocError> {
    matched(
        alloc,
        out,
        attributes,
        case,
        bytes_of(alloc, text)?.as_slice(),
    )
}

/// Whether the filter after a `|` matches the attributes before it.
pub fn passes(alloc: Global, out: &mut String, text: &str) -> Result<(), AllocError> {
    let (attributes, filter) = split_at(text, "|");
    match attributes_of(alloc, attributes)? {
        Some(attributes) => is_match(alloc, out, &attributes, Case::Keep, filter),
        None => put(out, "no attributes"),
    }
}
