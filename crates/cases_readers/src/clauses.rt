//! The clauses of header values.

use crate::headers::put_fault;
use cases_text::{check_copy, put, put_bracketed, put_shown, put_text};
use osgi_base::{List, Text};
use osgi_header::{Clause, ClauseAt, Pair, ReadClauses, Typed};
use std::alloc::{AllocError, Global};

fn put_paths(out: &mut String, paths: &[Text]) -> Result<(), AllocError> {
    for path in paths {
        put_bracketed(out, path.bytes())?;
    }
    Ok(())
}

fn put_directive(out: &mut String, directive: &Pair) -> Result<(), AllocError> {
    put(out, "{")?;
    put_text(out, &directive.name)?;
    put(out, ":=")?;
    put_text(out, &directive.value)?;
    put(out, "}")
}

fn put_attribute(out: &mut String, attribute: &Typed) -> Result<(), AllocError> {
    put(out, "{")?;
    put_text(out, &attribute.name)?;
    put(out, ":")?;
    put_text(out, &attribute.kind)?;
    put(out, "=")?;
    put_text(out, &attribute.value)?;
    put(out, "}")
}

fn put_directives(out: &mut String, directives: &[Pair]) -> Result<(), AllocError> {
    for directive in directives {
        put_directive(out, directive)?;
    }
    Ok(())
}

fn put_attributes(out: &mut String, attributes: &[Typed]) -> Result<(), AllocError> {
    for attribute in attributes {
        put_attribute(out, attribute)?;
    }
    Ok(())
}

fn put_clause(out: &mut String, clause: &Clause) -> Result<(), AllocError> {
    put_paths(out, clause.paths.items())?;
    put_directives(out, clause.directives.items())?;
    put_attributes(out, clause.attributes.items())
}

/// Adds clauses with `,` between, and `none` where there are none.
fn put_clauses(out: &mut String, clauses: &[Clause]) -> Result<(), AllocError> {
    if clauses.is_empty() {
        put(out, "none")?;
    }
    let mut separator = "";
    for clause in clauses {
        put(out, separator)?;
        put_clause(out, clause)?;
        separator = ",";
    }
    Ok(())
}

fn add_all(alloc: Global, out: &mut String, clauses: &List<Clause>) -> Result<(), AllocError> {
    put_clauses(out, clauses.items())?;
    check_copy(alloc, out, clauses)
}

/// The clauses of a header's value.
pub fn clauses(alloc: Global, out: &mut String, text: &[u8]) -> Result<(), AllocError> {
    match osgi_header::clauses(alloc, text)? {
        Ok(clauses) => add_all(alloc, out, &clauses),
        Err(fault) => put_fault(out, fault),
    }
}

/// Adds a clause after the byte at which it begins.
fn put_place(out: &mut String, place: &ClauseAt) -> Result<(), AllocError> {
    put_shown(out, &place.at)?;
    put(out, ":")?;
    put_clause(out, &place.clause)?;
    put(out, "|")
}

fn put_places(out: &mut String, places: &[ClauseAt]) -> Result<(), AllocError> {
    for place in places {
        put_place(out, place)?;
    }
    Ok(())
}

/// Adds each clause with its place, and the fault that follows them.
fn put_read(out: &mut String, read: &ReadClauses) -> Result<(), AllocError> {
    put_places(out, read.clauses.items())?;
    match read.fault {
        Some(fault) => put_fault(out, fault),
        None => Ok(()),
    }
}

/// The clauses of a header's value before its first fault, where each begins, and that fault.
pub fn read_clauses(alloc: Global, out: &mut String, text: &[u8]) -> Result<(), AllocError> {
    let read = osgi_header::read_clauses(alloc, text)?;
    put_read(out, &read)
}
