//! Reads lines of the console, and writes entries of the history, as a line of standard input says.
//!
//! A line is a case, and is printed again with its answer: `CASE => ANSWER`. The empty line and one that begins with `#` are
//! printed alone. In a text and in an answer `\n`, `\r`, `\t` and `\xHH` stand for bytes, and `\\` for a backslash.
//!
//! | Line | What is answered |
//! |---|---|
//! | `read TEXT` | what each line of the text says: `NUMBER COMMAND`, or `empty`, `join` or `bad` for one that has none |
//! | `lanes TEXT` | the same where there are eight lanes: `NUMBER lane K COMMAND` for a line of lane K |
//! | `write ENTRY; ENTRY ..` | the text of a session of three lines with commands that has these entries |
//!
//! An entry is `CALLER.LINE WORD ARGUMENT ..`, as `0.1 begin-start 3`; the tables of `entries.rt` have the words.
#![tactic(auto)]

mod cases;
mod commands;
mod entries;
mod reading;
mod writing;

use crate::cases::ConsoleCases;
use cases_text::answer_lines;
use std::io;

fn main(rt: HostRuntime) -> io::Result<()> {
    answer_lines(&rt, &mut ConsoleCases)
}
