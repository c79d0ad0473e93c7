//! Reads depots and their scripts for lines that standard input gives, from a shelf in memory, and prints their rows.
//!
//! A line is a case, and is printed again with its answer: `CASE => ANSWER`. An empty line, or one that begins with `#`, is
//! printed as it is.
//!
//! | Case | What is answered |
//! |---|---|
//! | `depot FAIL..: LINE; LINE..` | the rows of the depot of these lines, each with how many statements each section of its script has, and the shelf's count of faults |
//! | `many COUNT FAIL..` | how many rows the depot has of lines that install `l1`, `l2` and so on up to the count, the last two of them, and the faults |
//! | `more COUNT: LINE; LINE..` | the same, but for the faults, of lines that install `l1` and so on up to the count and these lines after them |
//!
//! FAIL is the number of a read that is to fail, counted from 1. LINE is `install LOCATION`, `update LOCATION` (of bundle 1),
//! `uninstall`, `load CLASS`, `join`, `bad`, or anything else for an empty line.
//!
//! The shelf has these folders: `good`, whose manifest names it `g`; `two`, with a manifest that names it `t` before one that
//! names it `second`; `old`, whose manifest is of version 1; `bare`, without a manifest; `crowd`, with 4,097 files; `scripted`, a
//! bundle `s` with an activator whose script has a section of two statements, an empty one and one of one statement; `silent`, the
//! same with a comment as its script; `part`, a fragment `f` that names the activator of `scripted` and has its file; and `broken`,
//! whose activator's file is no script.
#![tactic(auto)]

mod cases;
mod folders;
mod lines;
mod shown;

use crate::cases::DepotCases;
use cases_text::answer_lines;
use std::io;

fn main(rt: HostRuntime) -> io::Result<()> {
    answer_lines(&rt, &mut DepotCases)
}
