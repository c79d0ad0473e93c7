//! What a run of the program on one case comes to.

use crate::cases::Case;
use crate::counting_gate::CountingGate;
use crate::escapes::put_quoted;
use crate::sessions::put_session;
use osgi_outside::{MemoryShelf, MemorySink, MemorySource, Source};
use osgi_program::framework_main;
use std::alloc::{AllocError, Global};
use std::fmt::Write;
use std::sync::Wait;
use std::thread::Threads;

/// A text of more bytes is shown by their number and its last ones.
const SHOWN: usize = 1_000;

const LAST: usize = 60;

/// Appends what a run of the program on the case comes to.
pub fn add_answer<R: Threads + Wait + Sync>(
    rt: &R,
    alloc: Global,
    out: &mut String,
    case: &str,
) -> Result<(), AllocError> {
    match Case::read(alloc, case)? {
        Some(case) => run(rt, alloc, out, case),
        None => out.push_str("not a case"),
    }
}

/// Runs the program on a case, and appends how it ended.
fn run<R: Threads + Wait + Sync>(
    rt: &R,
    alloc: Global,
    out: &mut String,
    case: Case,
) -> Result<(), AllocError> {
    let Case {
        words,
        input,
        reads,
        writes,
        folders,
        counts,
        ..
    } = case;
    let mut source = MemorySource::new(input, reads);
    let mut sink = MemorySink::new(alloc, writes)?;
    let gate = CountingGate::new();
    let finished = framework_main(
        rt,
        alloc,
        words.as_slice(),
        &mut source,
        &mut sink,
        &mut MemoryShelf::new(folders, Vec::new(alloc)),
        &gate,
    );
    put_ends(out, finished.status, &mut source, &sink)?;
    match &finished.session {
        Some(session) => put_session(alloc, out, session)?,
        None => out.push_str(" | no session")?,
    }
    if counts { gate.put(out) } else { Ok(()) }
}

/// Appends the status, and what the ends tell.
fn put_ends(
    out: &mut String,
    status: u8,
    source: &mut MemorySource,
    sink: &MemorySink,
) -> Result<(), AllocError> {
    write!(out, "{status} ")?;
    put_sink(out, sink)?;
    put_source(out, source)
}

/// What was written and flushed, and the faults.
fn put_sink(out: &mut String, sink: &MemorySink) -> Result<(), AllocError> {
    let written = sink.written();
    let flushed = sink.flushed().len();
    put_text(out, written)?;
    if flushed < written.len() {
        write!(out, " flushed up to {flushed}")?;
    } else if flushed > 0 {
        out.push_str(" flushed")?;
    }
    if sink.faults() > 0 {
        write!(out, ", sink faults {}", sink.faults())?;
    }
    Ok(())
}

/// The faults, and the first bytes of what is left.
fn put_source(out: &mut String, source: &mut MemorySource) -> Result<(), AllocError> {
    if source.faults() > 0 {
        write!(out, ", source faults {}", source.faults())?;
    }
    let mut piece = [0; 64];
    match source.read(&mut piece) {
        Ok(0) => Ok(()),
        Ok(count) => {
            out.push_str(", left ")?;
            put_quoted(out, &piece[..count])
        }
        Err(_) => out.push_str(", and the next read fails"),
    }
}

fn put_text(out: &mut String, bytes: &[u8]) -> Result<(), AllocError> {
    if bytes.len() <= SHOWN {
        return put_quoted(out, bytes);
    }
    write!(out, "{} bytes to ", bytes.len())?;
    put_quoted(out, &bytes[bytes.len() - LAST..])
}
