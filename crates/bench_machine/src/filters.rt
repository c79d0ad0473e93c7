//! A filter matched again and again.

use crate::machine::lines_of;
use anyhow::{Result, bail};
use osgi_filter::{Case, matches};
use osgi_model::{Attributes, Filter};
use osgi_session::{Command, Content, Line};
use std::alloc::Global;

/// The filter that a line `find CLASS FILTER` has.
fn filter_of(line: &Line) -> Option<&Filter> {
    match &line.content {
        Content::Run(Command::Find { filter, .. }) => filter.as_ref(),
        _ => None,
    }
}

/// The properties that a line `modify ID PROP..` has.
fn properties_of(line: &Line) -> Option<&Attributes> {
    match &line.content {
        Content::Run(Command::Modify { properties, .. }) => Some(properties),
        _ => None,
    }
}

/// Matches the filter against the attributes so many times, and answers how often it matched.
fn count_true(filter: &Filter, attributes: &Attributes, count: u32) -> u32 {
    let mut matched: u32 = 0;
    for _ in 0..count {
        if matches(filter, attributes, Case::Fold) {
            matched = matched.saturating_add(1);
        }
    }
    matched
}

/// Matches the filter of the first line against the properties of the second.
pub fn count_matches(alloc: Global, text: &[u8], count: u32) -> Result<u32> {
    let lines = lines_of(alloc, text)?;
    let [first, second] = lines.items() else {
        bail!("matching takes two lines");
    };
    match (filter_of(first), properties_of(second)) {
        (Some(filter), Some(properties)) => Ok(count_true(filter, properties, count)),
        _ => bail!("matching takes a line that finds by a filter, and one that modifies"),
    }
}
