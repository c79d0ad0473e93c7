//! Sessions as an answer shows them.

use crate::commands::{put_command, put_op};
use crate::replies::put_reply;
use osgi_ops::Entry;
use osgi_program::Session;
use osgi_session::{Content, Line};
use std::alloc::{AllocError, Global};
use std::fmt::Write;

/// More lines, or entries, are shown by their number.
const SHOWN: usize = 50;

/// Adds a session, its lines and entries by their copies.
pub fn put_session(alloc: Global, out: &mut String, session: &Session) -> Result<(), AllocError> {
    out.push_str(" | ")?;
    put_lines(alloc, out, session.lines.copy(alloc)?.items())?;
    out.push_str(" | ")?;
    put_entries(alloc, out, session.entries.copy(alloc)?.items())?;
    if session.handings > 0 {
        write!(out, " | {} handings", session.handings)?;
    }
    Ok(())
}

fn put_lines(alloc: Global, out: &mut String, lines: &[Line]) -> Result<(), AllocError> {
    if lines.is_empty() || lines.len() > SHOWN {
        return write!(out, "{} lines", lines.len());
    }
    let mut separator = "";
    for line in lines {
        write!(out, "{separator}{}.{} ", line.lane, line.number)?;
        put_content(alloc, out, &line.content)?;
        separator = "; ";
    }
    Ok(())
}

fn put_content(alloc: Global, out: &mut String, content: &Content) -> Result<(), AllocError> {
    match content {
        Content::Empty => out.push_str("empty"),
        Content::Join => out.push_str("join"),
        Content::Bad => out.push_str("bad"),
        Content::Run(command) => put_command(alloc, out, command),
    }
}

fn put_entries(alloc: Global, out: &mut String, entries: &[Entry]) -> Result<(), AllocError> {
    if entries.is_empty() || entries.len() > SHOWN {
        return write!(out, "{} entries", entries.len());
    }
    let mut separator = "";
    for entry in entries {
        out.push_str(separator)?;
        put_entry(alloc, out, entry)?;
        separator = "; ";
    }
    Ok(())
}

fn put_entry(alloc: Global, out: &mut String, entry: &Entry) -> Result<(), AllocError> {
    write!(out, "{}.{} ", entry.tag.caller, entry.tag.command)?;
    put_op(alloc, out, &entry.op)?;
    out.push_str(": ")?;
    put_reply(alloc, out, &entry.reply)
}
