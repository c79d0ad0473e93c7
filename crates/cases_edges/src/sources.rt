//! Sources over std and in memory, tried step by step.

use crate::cases::{number, put_faults, put_letters, split_number, split_numbers};
use crate::frail::reader;
use cases_text::{put, put_shown, split_word};
use osgi_outside::{Failed, Input, MemorySource, Source, StdSource, read_all};
use std::alloc::{AllocError, Global};

/// The bytes that one read can give here.
const PIECE: usize = 4;

/// Adds how many bytes a read gave, and those into which it read.
fn add_given(out: &mut String, given: usize, piece: &[u8]) -> Result<(), AllocError> {
    put_shown(out, &given)?;
    put(out, " ")?;
    put_letters(out, piece)?;
    put(out, ", ")
}

/// Reads into so many bytes, and adds them all: what the read leaves alone is dots.
fn add_read<S: Source>(out: &mut String, source: &mut S, count: usize) -> Result<(), AllocError> {
    let mut piece = [b'.'; PIECE];
    let asked = count.min(PIECE);
    match source.read(&mut piece[..asked]) {
        Ok(given) => add_given(out, given, &piece[..asked]),
        Err(Failed) => put(out, "failed, "),
    }
}

/// Adds what was read to the end.
fn add_input(out: &mut String, input: &Input) -> Result<(), AllocError> {
    match input {
        Input::All(text) => {
            put(out, "all ")?;
            put_letters(out, text.bytes())?;
            put(out, ", ")
        }
        Input::TooMuch => put(out, "too much, "),
        Input::Failed => put(out, "failed, "),
    }
}

/// Does one step, and adds what it was answered.
fn add_step<S: Source>(
    alloc: Global,
    out: &mut String,
    source: &mut S,
    step: &str,
) -> Result<(), AllocError> {
    match step.strip_prefix("+") {
        Some(limit) => add_input(out, &read_all(alloc, source, number(limit) as usize)?),
        None => {
            let count = step.strip_prefix("=").unwrap_or(step);
            add_read(out, source, number(count) as usize)
        }
    }
}

fn add_steps<S: Source>(
    alloc: Global,
    out: &mut String,
    source: &mut S,
    steps: &str,
) -> Result<(), AllocError> {
    for step in steps.split_whitespace() {
        add_step(alloc, out, source, step)?;
    }
    Ok(())
}

/// A source over a reader of which reads fail.
pub fn std_source(alloc: Global, out: &mut String, line: &str) -> Result<(), AllocError> {
    let (last, rest) = split_number(line);
    let (bad, other, steps) = split_numbers(rest);
    let mut source = StdSource::new(reader((last % 20) as u8, (bad, other)));
    add_steps(alloc, out, &mut source, steps)?;
    put_faults(out, source.faults())
}

/// A source over a slice.
pub fn slice_source(alloc: Global, out: &mut String, line: &str) -> Result<(), AllocError> {
    let (text, steps) = split_word(line);
    let mut source = StdSource::new(text.as_bytes());
    add_steps(alloc, out, &mut source, steps)?;
    put_faults(out, source.faults())
}

/// A source in memory of which one read fails.
pub fn memory_source(alloc: Global, out: &mut String, line: &str) -> Result<(), AllocError> {
    let (text, rest) = split_word(line);
    let (bad, steps) = split_number(rest);
    let bytes = text.as_bytes().to_vec(alloc)?;
    let mut source = MemorySource::new(bytes, vec![in alloc; bad]?);
    add_steps(alloc, out, &mut source, steps)?;
    put_faults(out, source.faults())
}

/// Many bytes, and a last one that is another.
fn long_text(alloc: Global, count: u64) -> Result<Vec<u8>, AllocError> {
    let mut bytes = vec![in alloc; b'x'; count.saturating_sub(1) as usize]?;
    bytes.push(b'y')?;
    Ok(bytes)
}

/// What was read to the end, beside the bytes that there were.
fn compared(input: &Input, bytes: &[u8]) -> &'static str {
    match input {
        Input::All(text) if text.bytes() == bytes => "all of them",
        Input::All(_) => "other bytes",
        Input::TooMuch => "too much",
        Input::Failed => "failed",
    }
}

/// A source of many bytes, read to its end.
pub fn long_source(alloc: Global, out: &mut String, line: &str) -> Result<(), AllocError> {
    let (count, limit, _) = split_numbers(line);
    let bytes = long_text(alloc, count)?;
    let mut source = StdSource::new(bytes.as_slice());
    let input = read_all(alloc, &mut source, limit as usize)?;
    put(out, compared(&input, bytes.as_slice()))
}
