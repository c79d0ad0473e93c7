//! The operations that rows ask for.

ghost use Rattle.std.specs.Prelude.{◌≡◌};
ghost use Rattle.osgi_session.specs.Beginnings.{is_peek};

use osgi_base::{BundleId, List};
use osgi_console::parse;
use osgi_ops::Op;
use osgi_session::{Command, Content, Line};
use std::alloc::{AllocError, Global};

/// No row has as many bytes.
const MANY: usize = 1_000_000;

/// The lines that a text reads as.
fn lines_of(alloc: Global, text: &str) -> Result<List<Line>, AllocError> {
    let bytes = text.as_bytes();
    if bytes.len() >= MANY {
        return List::new(alloc);
    }
    parse(alloc, bytes, 0)
}

/// Whether the command asks for no operation.
fn is_peek(command: &Command) -> bool
    ensures peek { result ≡ is_peek command.now }
{
    matches!(command, Command::Peek { .. })
}

/// The operation that the plan of a command begins with, where the bundle runs it, if it begins with one.
fn first_op(alloc: Global, bundle: BundleId, command: &Command) -> Result<Option<Op>, AllocError> {
    let command = command.copy(alloc)?;
    if is_peek(&command) {
        return Ok(None);
    }
    let (op, _) = command.into_op(bundle);
    Ok(Some(op))
}

/// The operation that a line asks for, or why it asks for none.
fn op_by(
    alloc: Global,
    bundle: BundleId,
    content: &Content,
) -> Result<Result<Op, &'static str>, AllocError> {
    match content {
        Content::Run(command) => match first_op(alloc, bundle, command)? {
            Some(op) => Ok(Ok(op)),
            None => Ok(Err("nothing")),
        },
        Content::Empty => Ok(Err("nothing")),
        Content::Bad | Content::Join => Ok(Err("syntax")),
    }
}

/// The operation that lines ask for, of which there is to be one.
fn op_in(
    alloc: Global,
    bundle: BundleId,
    lines: &[Line],
) -> Result<Result<Op, &'static str>, AllocError> {
    match lines {
        [line] => op_by(alloc, bundle, &line.content),
        _ => Ok(Err("nothing")),
    }
}

/// The operation of the bundle that a line of the console asks for, or why it asks for none.
pub fn asked(
    alloc: Global,
    bundle: BundleId,
    text: &str,
) -> Result<Result<Op, &'static str>, AllocError> {
    let lines = lines_of(alloc, text)?.copy(alloc)?;
    op_in(alloc, bundle, lines.items())
}
