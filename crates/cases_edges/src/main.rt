//! Tries the ends of the program and shelves on each line of standard input, and prints what came of it.
//!
//! A line is a case, and is printed again with its answer: `CASE => ANSWER`. An empty line, or one that begins with `#`, is
//! printed as it is.
//!
//! | Case | What is tried |
//! |---|---|
//! | `std-sink BAD_WRITE BAD_FLUSH FULL STEP..` | a sink over a writer of one byte a call, of which one write and one flush fail, and which takes nothing from the write FULL on |
//! | `vec-sink STEP..`, `memory-sink BAD STEP..` | a sink over a `Vec`, and one in memory of which one call fails |
//! | `std-source LAST BAD BAD STEP..` | a source over a reader of one byte a call, of LAST letters, of which two reads fail |
//! | `slice-source TEXT STEP..`, `memory-source TEXT BAD STEP..` | a source over a slice, and one in memory of which one read fails |
//! | `long-source BYTES LIMIT` | so many bytes read to their end from a source over a slice |
//! | `shelf BAD LOCATION..` | reads of a shelf with folders at `e`, `f` and again `f`, of which one read fails |
//! | `folder BYTES FILES` | a read of a folder of so many files with so many bytes |
//! | `dir LOCATION\|LOCATION..` | reads of a shelf over the file system: a folder's files with their lengths, and the bytes of short ones |
//! | `gate` | a gate that holds nobody |
//!
//! Calls are counted from 1, and 0 is none of them. A step of a sink is `=TEXT`, one write; `+TEXT`, a text written whole; `.`, a
//! flush. A step of a source is `=COUNT`, one read into so many bytes, which are dots before it; `+LIMIT`, all bytes up to a
//! limit.
#![tactic(auto)]

mod cases;
mod folders;
mod frail;
mod shelves;
mod sinks;
mod sources;

use cases_text::{Cases, answer_line};
use osgi_outside::{Gate, OpenGate, Point};
use std::alloc::{AllocError, Global};
use std::io;
use std::rt::Files;
use std::sync::Wait;
use std::thread::Threads;

/// Passes each point of a gate that holds nobody.
fn pass_gate<R: Threads + Wait + Sync>(rt: &R) {
    for point in [Point::BeforeCall, Point::AfterCall, Point::InSection] {
        OpenGate.at(rt, 1, point);
    }
}

/// The ends of the program and shelves, and the runtime whose folders some cases read.
#[derive(Drop)]
struct EdgeCases<'a, R> {
    rt: &'a R,
}

impl<R: Files + AllocGlobal + Clone + Drop> Cases for EdgeCases<'_, R> {
    fn add_answer(
        &mut self,
        alloc: Global,
        out: &mut String,
        case: &str,
    ) -> Result<(), AllocError> {
        match case.strip_prefix("dir ") {
            Some(locations) => folders::read_each(self.rt, out, locations),
            None => cases::add_answer(alloc, out, case),
        }
    }
}

fn main(rt: HostRuntime) -> io::Result<()> {
    let mut cases = EdgeCases { rt: &rt };
    for line in rt.lines(rt.alloc()) {
        let line = line?;
        if line.as_str() == "gate" {
            pass_gate(&rt);
            println!(rt; "gate => passed")?;
        } else {
            answer_line(&rt, &mut cases, line.as_str())?;
        }
    }
    Ok(())
}
