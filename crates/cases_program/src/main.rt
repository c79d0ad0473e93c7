//! Runs the program on each line of standard input, over ends in memory, and prints how each run ended.
//!
//! A line is a case, and is printed again with its answer: `CASE => ANSWER`. An empty line, or one that begins with `#`, is
//! printed as it is. A case is a whole input, in which `\n`, `\r`, `\t` and `\xHH` stand for bytes, and `\` before any other byte
//! for that byte. Before the input may stand, each in brackets and with a space after it,
//!
//!     [words WORD ..]       the words of the command line, in place of `run`; '' is the empty word
//!     [reads N ..]          the numbers of the reads that fail, counted from 1
//!     [writes N ..]         the numbers of the writes and flushes that fail, counted together from 1
//!     [bundle NAME SCRIPT]  a bundle that the shelf has at the location NAME, with this script as its activator
//!     [gate]                the answer ends with how often the gate was come to, at each of its points
//!     [times N]             the input is so often what stands there
//!
//! An answer is `STATUS "WRITTEN" .. | LINE; LINE .. | ENTRY; ENTRY ..`, or ends in `no session`. The text that was written is
//! followed by `flushed`, where all of it was, or by how far it was, by the faults that the ends counted, where there are any,
//! and by what the source has left, where it has. A line is `LANE.NUMBER WHAT`, an entry `CALLER.LINE by BUNDLE OPERATION:
//! REPLY`. Many lines or entries are shown by their number. Where a copy of a session's lines or entries is another than these,
//! that is said at the end.
#![tactic(auto)]

mod answers;
mod bundles;
mod cases;
mod commands;
mod counting_gate;
mod escapes;
mod replies;
mod sessions;

use crate::answers::add_answer;
use std::io;
use std::sync::Wait;
use std::thread::Threads;

/// Prints a line again: with its answer if it is a case. A trait's method is not told that threads may share its runtime, so this
/// is not left to `answer_lines` of `cases_text`.
fn answer_line<R: AllocGlobal + Print + Threads + Wait + Sync>(
    rt: &R,
    line: &str,
) -> io::Result<()> {
    if line.is_empty() || line.starts_with('#') {
        return println!(rt; "{line}");
    }
    let mut answer = String::new(rt.alloc());
    add_answer(rt, rt.alloc(), &mut answer, line)?;
    println!(rt; "{line} => {answer}")
}

fn main(rt: HostRuntime) -> io::Result<()> {
    for line in rt.lines(rt.alloc()) {
        answer_line(&rt, line?.as_str())?;
    }
    Ok(())
}
