//! What lines of the console say.

use crate::commands::put_command;
use cases_text::{bytes_of, put, put_shown};
use osgi_base::List;
use osgi_console::parse;
use osgi_session::{Content, Line};
use std::alloc::{AllocError, Global};

/// No case has as many bytes.
const MANY: usize = 1_000_000;

/// The lines that bytes read as where there are so many lanes.
fn lines_of(alloc: Global, bytes: &[u8], lanes: u32) -> Result<List<Line>, AllocError> {
    if bytes.len() >= MANY {
        return List::new(alloc);
    }
    parse(alloc, bytes, lanes)
}

/// Adds what a line says.
fn add_content(out: &mut String, content: &Content) -> Result<(), AllocError> {
    match content {
        Content::Empty => put(out, "empty"),
        Content::Join => put(out, "join"),
        Content::Bad => put(out, "bad"),
        Content::Run(command) => put_command(out, command),
    }
}

/// Adds the number of a line, its lane if it has one, and what it says.
fn add_line(out: &mut String, line: &Line) -> Result<(), AllocError> {
    put_shown(out, &line.number)?;
    if line.lane > 0 {
        put(out, " lane ")?;
        put_shown(out, &line.lane)?;
    }
    put(out, " ")?;
    add_content(out, &line.content)
}

/// Adds what each line of a text says where there are so many lanes.
pub fn add_read(alloc: Global, out: &mut String, text: &str, lanes: u32) -> Result<(), AllocError> {
    let bytes = bytes_of(alloc, text)?;
    let lines = lines_of(alloc, bytes.as_slice(), lanes)?;
    for (at, line) in lines.items().iter().enumerate() {
        put(out, if at > 0 { "; " } else { "" })?;
        add_line(out, line)?;
    }
    Ok(())
}
