//! Sinks over std and in memory, tried step by step.

use crate::cases::{put_faults, put_letters, split_number, split_numbers};
use crate::frail::{FrailWriter, writer};
use cases_text::{put, put_shown};
use osgi_outside::{Failed, MemorySink, Sink, StdSink, write_all};
use std::alloc::{AllocError, Global};

/// Adds the word for what a call of a sink answers.
fn put_outcome(out: &mut String, answer: Result<(), Failed>) -> Result<(), AllocError> {
    match answer {
        Ok(()) => put(out, "ok, "),
        Err(Failed) => put(out, "failed, "),
    }
}

/// Adds how many bytes a write took.
fn put_count(out: &mut String, answer: Result<usize, Failed>) -> Result<(), AllocError> {
    match answer {
        Ok(count) => {
            put_shown(out, &count)?;
            put(out, ", ")
        }
        Err(Failed) => put(out, "failed, "),
    }
}

/// Does one step, and adds what it was answered.
fn add_step<K: Sink>(out: &mut String, sink: &mut K, step: &str) -> Result<(), AllocError> {
    match step.as_bytes() {
        [b'=', text @ ..] => put_count(out, sink.write(text)),
        [b'+', text @ ..] => put_outcome(out, write_all(sink, text)),
        _ => put_outcome(out, sink.flush()),
    }
}

fn add_steps<K: Sink>(out: &mut String, sink: &mut K, steps: &str) -> Result<(), AllocError> {
    for step in steps.split_whitespace() {
        add_step(out, sink, step)?;
    }
    Ok(())
}

/// Adds the faults of a sink, and what its writer was given.
fn add_writer(out: &mut String, faults: u64, writer: &FrailWriter) -> Result<(), AllocError> {
    put_faults(out, faults)?;
    put(out, "; ")?;
    put_letters(out, &writer.taken)?;
    put(out, " in ")?;
    put_shown(out, &writer.writes)?;
    put(out, " writes, ")?;
    put_shown(out, &writer.flushes)?;
    put(out, " flushes")
}

/// A sink over a writer of which calls fail.
pub fn std_sink(alloc: Global, out: &mut String, line: &str) -> Result<(), AllocError> {
    let (bad_write, bad_flush, rest) = split_numbers(line);
    let (full, steps) = split_number(rest);
    let mut sink = StdSink::new(writer(alloc, bad_write, bad_flush, full));
    add_steps(out, &mut sink, steps)?;
    let faults = sink.faults();
    add_writer(out, faults, &sink.into_inner())
}

/// A sink over a `Vec`.
pub fn vec_sink(alloc: Global, out: &mut String, steps: &str) -> Result<(), AllocError> {
    let mut sink = StdSink::new(Vec::new(alloc));
    add_steps(out, &mut sink, steps)?;
    put_faults(out, sink.faults())?;
    put(out, "; ")?;
    put_letters(out, &sink.into_inner())
}

/// Adds the faults of a sink in memory, and what it was given.
fn add_memory(out: &mut String, sink: &MemorySink) -> Result<(), AllocError> {
    put_faults(out, sink.faults())?;
    put(out, ", out of memory ")?;
    put_shown(out, &sink.starved())?;
    put(out, "; ")?;
    put_letters(out, sink.written())?;
    put(out, ", flushed ")?;
    put_letters(out, sink.flushed())
}

/// A sink in memory of which one call fails.
pub fn memory_sink(alloc: Global, out: &mut String, line: &str) -> Result<(), AllocError> {
    let (bad, steps) = split_number(line);
    let mut sink = MemorySink::new(alloc, vec![in alloc; bad]?)?;
    add_steps(out, &mut sink, steps)?;
    add_memory(out, &sink)
}
