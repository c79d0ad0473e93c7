//! The lines of an input, each read by the grammar of the console.

ghost use Rattle.std.specs.Prelude.{◌≡◌, List, ◌<◌, IfOk, length};
ghost use Rattle.std.specs.Str.Lines.{lines};
ghost use Rattle.osgi_session.specs.declared.line.Line.{Line};
ghost use Rattle.osgi_console.specs.Console.{AreLinesOf};
ghost use Rattle.osgi_console.specs.computed.LineReader.{joined, lane_by, laned, line_of, numbered, run_in, said_by, said_of, unlaned};
ghost use Rattle.osgi_syntax.specs.Splitting.{words_of};

use crate::arguments::has_no_word;
use crate::commands::command;
use osgi_base::{List, ServiceId};
use osgi_session::{Command, Content, Line};
use osgi_syntax::{id, says_nothing, split_line, split_word};
use std::alloc::{AllocError, Global};

/// What a line says, and in which lane: 0 where it names none.
#[derive(Drop)]
struct InLane {
    lane: u32,
    content: Content,
}

fn unlaned(content: Content) -> InLane
    ensures said { result ≡ unlaned content }
{
    InLane { lane: 0, content }
}

/// The lane with this number, of which there are so many; none where there is no such lane.
fn lane_by(lanes: u32, number: Option<ServiceId>) -> Option<u32>
    ensures lane { result ≡ lane_by lanes number }
{
    let ServiceId(number) = number?;
    if number < 1 || number > u64::from(lanes) {
        None
    } else {
        Some(number as u32)
    }
}

fn run_in(lane: u32, command: Option<Command>) -> InLane
    ensures said { result ≡ run_in lane command }
{
    match command {
        Some(command) => InLane {
            lane,
            content: Content::Run(command),
        },
        None => unlaned(Content::Bad),
    }
}

/// `lane K COMMAND`, from what follows its first word.
fn laned(alloc: Global, lanes: u32, text: &[u8]) -> Result<InLane, AllocError>
    ensures said { IfOk result (λ said. said ≡ laned lanes text.now) }
{
    let Some((word, rest)) = split_word(text) else {
        return Ok(unlaned(Content::Bad));
    };
    match lane_by(lanes, id(word)) {
        Some(lane) => Ok(run_in(lane, command(alloc, rest)?)),
        None => Ok(unlaned(Content::Bad)),
    }
}

/// `join`, from what follows its first word.
fn joined(text: &[u8]) -> Content
    ensures content { result ≡ joined (words_of text.now) }
{
    if has_no_word(text) {
        Content::Join
    } else {
        Content::Bad
    }
}

/// Reads what a line says that says something.
fn said_by(alloc: Global, lanes: u32, text: &[u8]) -> Result<InLane, AllocError>
    ensures said { IfOk result (λ said. said ≡ said_by lanes text.now) }
{
    let Some((word, rest)) = split_word(text) else {
        return Ok(unlaned(Content::Bad));
    };
    if word == b"join".as_slice() {
        return Ok(unlaned(joined(rest)));
    }
    if word == b"lane".as_slice() {
        return laned(alloc, lanes, rest);
    }
    Ok(run_in(0, command(alloc, text)?))
}

fn said(alloc: Global, lanes: u32, text: &[u8]) -> Result<InLane, AllocError>
    ensures said { IfOk result (λ said. said ≡ said_of lanes text.now) }
{
    if says_nothing(text) {
        return Ok(unlaned(Content::Empty));
    }
    said_by(alloc, lanes, text)
}

fn line(alloc: Global, lanes: u32, number: u32, text: &[u8]) -> Result<Line, AllocError>
    ensures line { IfOk result (λ line. line ≡ line_of lanes number text.now) }
{
    let InLane { lane, content } = said(alloc, lanes, text)?;
    Ok(Line {
        number,
        lane,
        content,
    })
}

/// Reads all lines of an input, in order, each by the grammar of the console, in which there are so many lanes.
///
/// A line ends by LF or CRLF; the last one need not. Lines are numbered from 1.
pub fn parse(alloc: Global, bytes: &[u8], lanes: u32) -> Result<List<Line>, AllocError>
    requires few { length bytes.now < u32.MAX }
    ensures reads { IfOk result (AreLinesOf lanes bytes.now) }
    ensures only { (others : List Line)
        → AreLinesOf lanes bytes.now others
        → IfOk result (λ all. all ≡ others) }
{
    read_lines(alloc, bytes, lanes)
}

fn read_lines(alloc: Global, bytes: &[u8], lanes: u32) -> Result<List<Line>, AllocError>
    requires few { length bytes.now < u32.MAX }
    ensures lines { IfOk result (λ all. all ≡ numbered lanes 1 (lines bytes.now)) }
{
    let mut all = List::new(alloc)?;
    let mut number: u32 = 1;
    let mut rest = bytes;
    while let Some((text, left)) = split_line(rest) {
        all.push(line(alloc, lanes, number, text)?)?;
        number += 1;
        rest = left;
    }
    Ok(all)
}
