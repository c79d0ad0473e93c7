//! Entries as the answers show them.

use cases_text::{complain, put};
use osgi_base::Text;
use osgi_console_text::render;
use osgi_ops::Entry;
use osgi_session::{Command, Content, Line};
use std::alloc::{AllocError, Global};
use std::{slice, str};

/// A line with a command, of the tag of an entry.
fn line_of(entry: &Entry) -> Line {
    Line {
        number: entry.tag.command,
        lane: entry.tag.caller,
        content: Content::Run(Command::Services),
    }
}

/// What the console writes of a line that has this entry alone.
fn written(alloc: Global, line: &Line, entry: &Entry) -> Result<Text, AllocError> {
    render(alloc, slice::from_ref(line), slice::from_ref(entry), &[])
}

/// What an entry writes. Where it is alone it does not end the run of its line, and so `full` follows.
fn without_full(text: &str) -> &str {
    text.strip_suffix("full\n").unwrap_or(text)
}

/// Adds lines in one.
fn add_joined(out: &mut String, lines: &str) -> Result<(), AllocError> {
    for (at, line) in lines.lines().enumerate() {
        put(out, if at > 0 { "; " } else { "" })?;
        put(out, line)?;
    }
    Ok(())
}

/// Adds what the console writes of an entry, in one line.
pub fn add_shown(alloc: Global, out: &mut String, entry: &Entry) -> Result<(), AllocError> {
    let text = written(alloc, &line_of(entry), entry)?;
    let shown = str::from_utf8(text.bytes()).unwrap_or("(no UTF-8)");
    add_joined(out, without_full(shown))
}

/// Whether the console writes the same of two entries.
pub fn are_shown_alike(alloc: Global, one: &Entry, other: &Entry) -> Result<bool, AllocError> {
    let shown = written(alloc, &line_of(one), one)?;
    Ok(written(alloc, &line_of(other), other)? == shown)
}

/// Whether the console writes the same of an entry and of its copy.
fn is_as_copied(alloc: Global, entry: &Entry) -> Result<bool, AllocError> {
    let copy = entry.copy(alloc)?;
    are_shown_alike(alloc, entry, &copy)
}

/// Whether what was added to an answer says that it is a refusal.
fn is_shown_refused(out: &str, start: usize) -> bool {
    let shown = out.get(start..);
    shown.is_some_and(|shown| shown.starts_with("refused "))
}

/// Adds what the console writes of an entry, and what is wrong with its copies and its reply.
pub fn add_checked(alloc: Global, out: &mut String, entry: &Entry) -> Result<(), AllocError> {
    let start = out.len();
    add_shown(alloc, out, entry)?;
    let is_refused = is_shown_refused(out.as_str(), start);
    let is_agreed = entry.reply.is_refusal() == is_refused;
    complain(out, is_agreed, ", is_refusal differs")?;
    complain(out, is_as_copied(alloc, entry)?, ", a copy differs")
}
