//! What a session writes that has the entries and the peeks of a row.

use crate::entries::entry_of;
use cases_operations::number;
use cases_text::{number_of, push_bytes, put, split_word};
use osgi_base::{List, ServiceId, Tag, Text};
use osgi_console_text::render;
use osgi_ops::{Entry, Peek};
use osgi_session::{Command, Content, Line};
use std::alloc::{AllocError, Global};

/// A line with a command, of this number.
fn line(number: u32) -> Line {
    Line {
        number,
        lane: 0,
        content: Content::Run(Command::Services),
    }
}

/// Lines 1 to 3, each with a command.
fn lines(alloc: Global) -> Result<List<Line>, AllocError> {
    let mut lines = List::new(alloc)?;
    for number in 1..4 {
        lines.push(line(number))?;
    }
    Ok(lines)
}

/// A peek by the number of its line, how many entries there were, and the services that it found.
fn peek_of(alloc: Global, text: &str) -> Result<Peek, AllocError> {
    let (command, rest) = split_word(text);
    let (place, ids) = split_word(rest);
    let mut services = List::new(alloc)?;
    for id in ids.split(' ') {
        if let Some(id) = number_of(id) {
            services.push(ServiceId(id))?;
        }
    }
    Ok(Peek {
        tag: Tag {
            caller: 0,
            command: number(command),
        },
        class: Text::of(alloc, b"a.A".as_slice())?,
        filter: None,
        place: u64::from(number(place)),
        services,
    })
}

/// The entries and the peeks of a row, which semicolons part; none where one of them is none.
fn parts(alloc: Global, row: &str) -> Result<Option<(List<Entry>, List<Peek>)>, AllocError> {
    let mut entries = List::new(alloc)?;
    let mut peeks = List::new(alloc)?;
    for part in row.split("; ") {
        let (word, text) = split_word(part);
        if word == "peek" {
            peeks.push(peek_of(alloc, text)?)?;
        } else {
            let Some(entry) = entry_of(alloc, part)? else {
                return Ok(None);
            };
            entries.push(entry)?;
        }
    }
    Ok(Some((entries, peeks)))
}

/// Adds the text of a session with these entries and peeks.
fn add_rendered(
    alloc: Global,
    out: &mut String,
    entries: &[Entry],
    peeks: &[Peek],
) -> Result<(), AllocError> {
    let lines = lines(alloc)?;
    let text = render(alloc, lines.items(), entries, peeks)?;
    push_bytes(out, text.bytes())
}

/// Adds the text of a session with the entries and the peeks of a row.
pub fn add_written(alloc: Global, out: &mut String, row: &str) -> Result<(), AllocError> {
    match parts(alloc, row)? {
        Some((entries, peeks)) => add_rendered(alloc, out, entries.items(), peeks.items()),
        None => put(out, "no such entry"),
    }
}
