//! The lines of a manifest's main section.

ghost use Rattle.std.specs.Prelude.{◌≡◌, IfOk, MatchOption};
ghost use Rattle.std.specs.List.{prefix_len};
ghost use Rattle.osgi_header.specs.Lines.{is_line_byte, AreLines, BeginsWithPhysicalLine, EndsSection};
ghost use Rattle.osgi_header.specs.computed.HeaderReader.{after_end, lines_seen, without_line_feed};

use std::alloc::{AllocError, Global};

/// A line: the place where it begins, and its bytes without its end.
#[derive(Clone, Copy)]
pub struct LineAt<'a> {
    pub at: u64,
    pub text: &'a [u8],
}

/// The length of the line at the start, without its end.
fn line_len(bytes: &[u8]) -> usize
    ensures len { result ≡ prefix_len is_line_byte bytes.now }
{
    for (at, b) in bytes.iter().enumerate() {
        if matches!(*b, b'\r' | b'\n') {
            return at;
        }
    }
    bytes.len()
}

fn skip_line_feed(bytes: &[u8]) -> &[u8]
    ensures rest { result.now ≡ without_line_feed bytes.now }
{
    match bytes {
        [b'\n', rest @ ..] => rest,
        _ => bytes,
    }
}

/// What is left after the line end that stands at the start: CRLF, LF or CR.
fn skip_end(bytes: &[u8]) -> &[u8]
    ensures rest { result.now ≡ after_end bytes.now }
{
    match bytes {
        [b'\r', rest @ ..] => skip_line_feed(rest),
        [_, rest @ ..] => rest,
        [] => bytes,
    }
}

/// Splits off the first line: the line, and what is left after its end. None where the section is over.
fn split_line(bytes: &[u8]) -> Option<(&[u8], &[u8])>
    ensures line { MatchOption result (EndsSection bytes.now) (λ split. BeginsWithPhysicalLine bytes.now split.0.now split.1.now) }
{
    let (text, remainder) = bytes.split_at(line_len(bytes));
    if text.is_empty() {
        return None;
    }
    Some((text, skip_end(remainder)))
}

/// All lines of the main section, in order.
pub fn read_lines<'a>(alloc: Global, bytes: &'a [u8]) -> Result<Vec<LineAt<'a>>, AllocError>
    ensures lines { IfOk result (λ lines. AreLines 0 bytes.now (lines_seen lines.items)) }
{
    let mut lines = Vec::new(alloc);
    let mut rest = bytes;
    while let Some((text, left)) = split_line(rest) {
        let at = (bytes.len() - rest.len()) as u64;
        lines.push(LineAt { at, text })?;
        rest = left;
    }
    Ok(lines)
}
