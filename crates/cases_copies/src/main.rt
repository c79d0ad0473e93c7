//! Copies values of the shared data and a problem, on each line of standard input, and prints what came of it.
//!
//! A line is a case, and is printed again with its answer: `CASE => ANSWER`. An empty line, or one that begins with `#`, is
//! printed as it is.
//!
//! | Case | What is tried |
//! |---|---|
//! | `order TEXT TEXT` | how two texts compare |
//! | `copies` | whether values of each shared type equal their copies |
//! | `problem-copy` | whether the copy of a problem has the parts of what was copied |
//!
//! A problem's world is copied where `cases_resolver` makes one of it, and manifests' faults wherever a session reports one.
#![tactic(auto)]

mod copies;
mod problem_copy;
mod tree;

use cases_text::{Cases, answer_lines, put, split_word};
use std::alloc::{AllocError, Global};
use std::io;

/// Copies of values.
#[derive(Drop)]
struct CopyCases;

impl Cases for CopyCases {
    fn add_answer(
        &mut self,
        alloc: Global,
        out: &mut String,
        case: &str,
    ) -> Result<(), AllocError> {
        let (name, rest) = split_word(case);
        if name == "order" {
            copies::order(alloc, out, rest)
        } else if name == "copies" {
            copies::copies(alloc, out)
        } else if name == "problem-copy" {
            problem_copy::problem_copy(alloc, out)
        } else {
            put(out, "not a case")
        }
    }
}

fn main(rt: HostRuntime) -> io::Result<()> {
    answer_lines(&rt, &mut CopyCases)
}
