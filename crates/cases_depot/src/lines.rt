//! The lines of a session, as cases give them.

use osgi_base::{BundleId, Text};
use osgi_session::{Command, Content, Line};
use std::alloc::{AllocError, Global};

const BUNDLE: BundleId = BundleId(1);

/// What a line says that has one of the words that take a text; it is empty for another word.
fn content_with(word: &str, text: Text) -> Content {
    if word == "install" {
        Content::Run(Command::Install { location: text })
    } else if word == "update" {
        Content::Run(Command::Update {
            bundle: BUNDLE,
            location: text,
        })
    } else if word == "load" {
        Content::Run(Command::Load {
            bundle: BUNDLE,
            class: text,
        })
    } else {
        Content::Empty
    }
}

/// What a line says.
fn content(alloc: Global, line: &str) -> Result<Content, AllocError> {
    let (word, rest) = line.split_once(' ').unwrap_or((line, ""));
    if word == "bad" {
        Ok(Content::Bad)
    } else if word == "join" {
        Ok(Content::Join)
    } else if word == "uninstall" {
        Ok(Content::Run(Command::Uninstall { bundle: BUNDLE }))
    } else {
        Ok(content_with(word, Text::of(alloc, rest.as_bytes())?))
    }
}

/// Adds lines with `;` between.
pub fn add_lines(alloc: Global, lines: &mut Vec<Line>, text: &str) -> Result<(), AllocError> {
    for line in text.split(';') {
        lines.push(Line {
            number: 1,
            lane: 0,
            content: content(alloc, line.trim())?,
        })?;
    }
    Ok(())
}

/// Lines with `;` between.
pub fn lines_of(alloc: Global, text: &str) -> Result<Vec<Line>, AllocError> {
    let mut lines = Vec::new(alloc);
    add_lines(alloc, &mut lines, text)?;
    Ok(lines)
}

/// Lines that install `l1`, `l2` and so on up to the count.
pub fn installs(alloc: Global, count: u64) -> Result<Vec<Line>, AllocError> {
    let mut lines = Vec::new(alloc);
    for at in 0..count {
        let name = format!(in alloc; "install l{}", at.saturating_add(1))?;
        lines.push(Line {
            number: 1,
            lane: 0,
            content: content(alloc, name.as_str())?,
        })?;
    }
    Ok(lines)
}
