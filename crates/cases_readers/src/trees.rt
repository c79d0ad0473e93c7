//! Filters as trees.

use cases_text::{put, put_quoted, value_or_fault};
use osgi_base::Text;
use osgi_filter::parse;
use osgi_model::{Filter, Test};
use std::alloc::{AllocError, Global};

fn put_text(out: &mut String, label: &str, text: &Text) -> Result<(), AllocError> {
    put(out, label)?;
    put(out, " ")?;
    put_quoted(out, text.bytes())
}

fn put_pieces(out: &mut String, pieces: &[Text]) -> Result<(), AllocError> {
    put(out, " pieces")?;
    for piece in pieces {
        put_text(out, "", piece)?;
    }
    Ok(())
}

fn put_test(out: &mut String, test: &Test) -> Result<(), AllocError> {
    match test {
        Test::Equal(text) => put_text(out, " equal", text),
        Test::Approx(text) => put_text(out, " approx", text),
        Test::AtLeast(text) => put_text(out, " at-least", text),
        Test::AtMost(text) => put_text(out, " at-most", text),
        Test::Present => put(out, " present"),
        Test::Pieces(pieces) => put_pieces(out, pieces.items()),
    }
}

#[cycle(put)]
fn put_filter(out: &mut String, filter: &Filter) -> Result<(), AllocError> {
    match filter {
        Filter::And(filters) => put_all(out, "and", filters.items()),
        Filter::Or(filters) => put_all(out, "or", filters.items()),
        Filter::Not(filter) => {
            put(out, "not ")?;
            put_filter(out, filter.get())
        }
        Filter::Item { name, test } => {
            put_text(out, "item", name)?;
            put_test(out, test)
        }
    }
}

#[cycle(put)]
fn put_all(out: &mut String, label: &str, filters: &[Filter]) -> Result<(), AllocError> {
    put(out, label)?;
    for filter in filters {
        put(out, " {")?;
        put_filter(out, filter)?;
        put(out, "}")?;
    }
    Ok(())
}

/// The filter that a text reads as, part by part.
pub fn tree(alloc: Global, out: &mut String, text: &[u8]) -> Result<(), AllocError> {
    match value_or_fault(out, parse(alloc, text))? {
        Some(filter) => put_filter(out, &filter),
        None => Ok(()),
    }
}
