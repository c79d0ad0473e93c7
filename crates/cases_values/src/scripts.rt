//! Scripts: read, and shown section by section.

use crate::statements::{put_named, put_statement};
use cases_text::{number_of, put, put_shown};
use osgi_ops::Section;
use osgi_script::{Part, ScriptFault, Statement, parse};
use std::alloc::{AllocError, Global};

fn put_section(out: &mut String, section: &Section) -> Result<(), AllocError> {
    match section {
        Section::Start => put(out, "start"),
        Section::Stop => put(out, "stop"),
        Section::On(name) => put_named(out, "on", name),
        Section::Job(name) => put_named(out, "job", name),
        Section::Make(name) => put_named(out, "make", name),
    }
}

/// Adds the head of a section, by its copy.
fn put_head(alloc: Global, out: &mut String, section: &Section) -> Result<(), AllocError> {
    let copy = section.copy(alloc)?;
    put_section(out, &copy)?;
    put(out, ":")
}

/// Adds a statement in brackets, by its copy.
fn put_bracketed(alloc: Global, out: &mut String, statement: &Statement) -> Result<(), AllocError> {
    let copy = statement.copy(alloc)?;
    put(out, "[")?;
    put_statement(alloc, out, &copy)?;
    put(out, "]")
}

fn put_statements(
    alloc: Global,
    out: &mut String,
    statements: &[Statement],
) -> Result<(), AllocError> {
    for statement in statements {
        put_bracketed(alloc, out, statement)?;
    }
    Ok(())
}

/// Adds a section: its head, and its statements in brackets.
fn put_part(alloc: Global, out: &mut String, part: &Part) -> Result<(), AllocError> {
    put_head(alloc, out, &part.section)?;
    put_statements(alloc, out, part.statements.items())?;
    put(out, "|")
}

fn put_parts(alloc: Global, out: &mut String, parts: &[Part]) -> Result<(), AllocError> {
    if parts.is_empty() {
        put(out, "no sections")?;
    }
    for part in parts {
        put_part(alloc, out, part)?;
    }
    Ok(())
}

fn put_fault(out: &mut String, fault: ScriptFault) -> Result<(), AllocError> {
    put(out, "line ")?;
    put_shown(out, &fault.line)
}

/// The script that a text reads as.
pub fn script(alloc: Global, out: &mut String, text: &[u8]) -> Result<(), AllocError> {
    match parse(alloc, text)? {
        Ok(script) => put_parts(alloc, out, script.sections.items()),
        Err(fault) => put_fault(out, fault),
    }
}

/// Adds how many statements each section has.
fn put_counts(out: &mut String, parts: &[Part]) -> Result<(), AllocError> {
    for part in parts {
        put_shown(out, &part.statements.items().len())?;
        put(out, "|")?;
    }
    Ok(())
}

/// A script of two sections, of which the first has so many statements, and the second one.
fn long_script(alloc: Global, count: u64) -> Result<Vec<u8>, AllocError> {
    let mut text = Vec::new(alloc);
    text.extend_from_slice(b"start:\n")?;
    for _ in 0..count {
        text.extend_from_slice(b"get v\n")?;
    }
    text.extend_from_slice(b"stop:\nget v")?;
    Ok(text)
}

/// How many statements the sections of a script have, or its fault.
fn counted(alloc: Global, out: &mut String, text: &[u8]) -> Result<(), AllocError> {
    match parse(alloc, text)? {
        Ok(script) => put_counts(out, script.sections.items()),
        Err(fault) => put_fault(out, fault),
    }
}

/// How many statements the sections of a long script have, or its fault.
pub fn statements(alloc: Global, out: &mut String, count: &str) -> Result<(), AllocError> {
    match number_of(count) {
        Some(count) => counted(alloc, out, long_script(alloc, count)?.as_slice()),
        None => put(out, "no count"),
    }
}
