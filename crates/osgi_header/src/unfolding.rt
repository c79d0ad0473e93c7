//! The headers of a manifest's main section, read by their grammar.

ghost use Rattle.std.specs.Prelude.{◌≡◌, ◌≤◌, List, [], drop, length, IfOk, MatchOption, MatchResult, Ok, Err};
ghost use Rattle.std.specs.List.{list_all, position, prefix_len};
ghost use Rattle.std.specs.Str.{is_utf8};
ghost use Rattle.osgi_header.specs.Headers.{is_header_name_byte, AreHeadersOf, IsHeaderFault};
ghost use Rattle.osgi_header.specs.Lines.{continues, joined};
ghost use Rattle.osgi_header.specs.computed.HeaderReader.{counted, first_long, group, groups_of, header_of, headers_from, is_colon, is_header_name, is_long, items_read, line_seen, lines_seen, parsed, without_space, BeginsWithGroup};

use crate::fault::{HeaderFault, HeaderKind};
use crate::header::Header;
use crate::lines::{LineAt, read_lines};
use crate::repeated::keep_last;
use osgi_base::{List, Text};
use std::alloc::{AllocError, Global};
use std::str;

/// The most bytes of a line, without its end.
const MAX_LINE_LEN: usize = 65_536;

fn is_long(line: &LineAt) -> bool
    ensures long { result ≡ is_long (line_seen line.now) }
{
    line.text.len() > MAX_LINE_LEN
}

/// Whether a line goes on with the line before it.
fn continues(line: &LineAt) -> bool
    ensures continues { result ≡ continues (line_seen line.now) }
{
    matches!(line.text, [b' ', ..])
}

/// How many lines at the start go on with the line before them.
fn continued(lines: &[LineAt]) -> usize
    ensures count { result ≡ prefix_len continues (lines_seen lines.now) }
{
    for (count, line) in lines.iter().enumerate() {
        if !continues(line) {
            return count;
        }
    }
    lines.len()
}

/// The place of the first line that is too long.
fn first_long(lines: &[LineAt]) -> Option<u64>
    ensures place { result ≡ first_long (lines_seen lines.now) }
{
    for line in lines {
        if is_long(line) {
            return Some(line.at);
        }
    }
    None
}

/// A header's lines in one: the first, and those that go on with it, each without the space at its start.
fn join(alloc: Global, first: &LineAt, more: &[LineAt]) -> Result<Vec<u8>, AllocError>
    ensures joined { IfOk result (λ text. text.items ≡ joined (group (line_seen first.now) (lines_seen more.now))) }
{
    let mut text = first.text.to_vec(alloc)?;
    for line in more {
        if let [_, rest @ ..] = line.text {
            text.extend_from_slice(rest)?;
        }
    }
    Ok(text)
}

fn colon_at(text: &[u8]) -> Option<usize>
    ensures place { result ≡ position is_colon text.now }
{
    text.iter().position(|b| *b == b':')
}

fn has_name_bytes(text: &[u8]) -> bool
    ensures all { result ≡ list_all is_header_name_byte text.now }
{
    text.iter().all(|b| matches!(*b, b'a'..=b'z' | b'A'..=b'Z' | b'0'..=b'9' | b'_' | b'-'))
}

/// Whether a text is a header's name.
fn is_header_name(name: &[u8]) -> bool
    ensures name { result ≡ is_header_name name.now }
{
    match name {
        [b'_' | b'-', ..] | [] => false,
        _ => has_name_bytes(name),
    }
}

fn is_utf8(text: &[u8]) -> bool
    ensures utf8 { result ≡ is_utf8 text.now }
{
    str::from_utf8(text).is_ok()
}

/// A text without the one space at its start, if it has one.
fn skip_space(text: &[u8]) -> &[u8]
    ensures rest { result.now ≡ without_space text.now }
{
    match text {
        [b' ', rest @ ..] => rest,
        _ => text,
    }
}

/// Reads a header's joined lines; where they are none, what is wrong with them.
fn parse_header(alloc: Global, text: &[u8]) -> Result<Result<Header, HeaderKind>, AllocError>
    ensures header { IfOk result (λ header. header ≡ parsed text.now) }
{
    let Some(colon) = colon_at(text) else {
        return Ok(Err(HeaderKind::NoColon));
    };
    let (name, _) = text.split_at(colon);
    if !is_header_name(name) {
        return Ok(Err(HeaderKind::BadName));
    }
    if !is_utf8(text) {
        return Ok(Err(HeaderKind::BadUtf8));
    }
    let (_, remainder) = text.split_at(colon + 1);
    Ok(Ok(Header {
        name: Text::of(alloc, name)?,
        value: Text::of(alloc, skip_space(remainder))?,
    }))
}

/// Reads the header of a first line and those that go on with it; where they are none, their first fault.
fn read_header(
    alloc: Global,
    first: &LineAt,
    more: &[LineAt],
) -> Result<Result<Header, HeaderFault>, AllocError>
    ensures header { IfOk result (λ header. header ≡ header_of (group (line_seen first.now) (lines_seen more.now))) }
{
    let at = first.at;
    if is_long(first) {
        let kind = HeaderKind::LongLine;
        return Ok(Err(HeaderFault { kind, at }));
    }
    let text = join(alloc, first, more)?;
    let header = match parse_header(alloc, text.as_slice())? {
        Ok(header) => header,
        Err(kind) => return Ok(Err(HeaderFault { kind, at })),
    };
    match first_long(more) {
        Some(at) => {
            let kind = HeaderKind::LongLine;
            Ok(Err(HeaderFault { kind, at }))
        }
        None => Ok(Ok(header)),
    }
}

/// The lines of the header that begins at an index: the first, and those that go on with it. None where no line is left.
fn header_lines<'s, 'a>(
    lines: &'s [LineAt<'a>],
    start: usize,
) -> Option<(&'s LineAt<'a>, &'s [LineAt<'a>])>
    requires within { start ≤ length lines.now }
    ensures header { MatchOption result (drop start lines.now ≡ []) (λ s. BeginsWithGroup lines.now start (line_seen s.0.now) s.1.now) }
{
    let (_, rest) = lines.split_at(start);
    let [first, remainder @ ..] = rest else {
        return None;
    };
    let (more, _) = remainder.split_at(continued(remainder));
    Some((first, more))
}

/// Reads the headers of the lines, in order, the repeated ones too.
fn read_headers(
    alloc: Global,
    lines: &[LineAt],
) -> Result<Result<Vec<Header>, HeaderFault>, AllocError>
    ensures headers { IfOk result (λ all. items_read all ≡ headers_from (groups_of (lines_seen lines.now))) }
{
    let mut all = Vec::new(alloc);
    let mut start = 0;
    while let Some((first, more)) = header_lines(lines, start) {
        match read_header(alloc, first, more)? {
            Ok(header) => all.push(header)?,
            Err(fault) => return Ok(Err(fault)),
        }
        start += more.len() + 1;
    }
    Ok(Ok(all))
}

/// Reads the headers of the lines, of repeated ones the last.
fn read_counting(
    alloc: Global,
    lines: &[LineAt],
) -> Result<Result<List<Header>, HeaderFault>, AllocError>
    ensures headers { IfOk result (λ all. all ≡ counted (headers_from (groups_of (lines_seen lines.now)))) }
{
    match read_headers(alloc, lines)? {
        Ok(headers) => Ok(Ok(List::from(keep_last(alloc, headers)?))),
        Err(fault) => Ok(Err(fault)),
    }
}

/// Reads the headers of a manifest's main section.
///
/// The section ends at the first empty line. Each name comes once, since of repeated headers the last counts; the
/// headers that count are in the order of their lines. A fault names the first faulty line, among repeated headers too.
pub fn unfold(alloc: Global, bytes: &[u8]) -> Result<Result<List<Header>, HeaderFault>, AllocError>
    ensures reads { IfOk result (λ r. MatchResult r (AreHeadersOf bytes.now) (IsHeaderFault bytes.now)) }
    ensures only { (others : List Header) → AreHeadersOf bytes.now others → IfOk result (λ r. r ≡ Ok others) }
    ensures fault { (other : HeaderFault) → IsHeaderFault bytes.now other → IfOk result (λ r. r ≡ Err other) }
{
    let lines = read_lines(alloc, bytes)?;
    read_counting(alloc, lines.as_slice())
}
