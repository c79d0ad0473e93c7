//! Takes items out of linked rows and puts them back, on each line of standard input, and prints what came of it.
//!
//! A line is a case, and is printed again with its answer: `LIST LIST.. | STEP; STEP.. => ANSWER; ANSWER..`. An empty line, or
//! one that begins with `#`, is printed as it is. A list is its values with commas between them, or `-` where it has none; rows
//! are made of the lists, and the steps are taken one after another.
//!
//! | Step | Answer |
//! |---|---|
//! | `rows` | all rows |
//! | `first ROW` | the row's first item, or `none` |
//! | `next ROW ITEM` | the item after this one in the row, or `none` |
//! | `unlink ROW ITEM` | the item, once it is out, and all rows |
//! | `relink` | all rows, with the item back that was taken out last; `none is out` |
//! | `there-and-back ROW ITEM` | all rows, after the item was taken out and put back |
//!
//! An item is shown as `ITEM:VALUE`, both of them numbers, and a row as its items that are not out, with commas between them, or
//! as `-`. Where a call may not be made the answer is `no such row` or `not in the row`, and nothing is called.
#![tactic(auto)]

mod lists;
mod showing;
mod steps;

use cases_text::{Cases, answer_lines, split_at};
use osgi_links::Rows;
use std::alloc::{AllocError, Global};
use std::io;

/// Rows, and steps in them.
#[derive(Drop)]
struct LinkCases;

impl Cases for LinkCases {
    fn add_answer(
        &mut self,
        alloc: Global,
        out: &mut String,
        case: &str,
    ) -> Result<(), AllocError> {
        let (words, steps) = split_at(case, " | ");
        let lists = lists::read_lists(alloc, words)?;
        let mut rows = Rows::new(alloc, &lists)?;
        steps::add_answers(out, &mut rows, lists.len(), steps)
    }
}

fn main(rt: HostRuntime) -> io::Result<()> {
    answer_lines(&rt, &mut LinkCases)
}
