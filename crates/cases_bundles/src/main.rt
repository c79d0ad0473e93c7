//! Reads calls of a table of bundles, and prints what each answers.
//!
//! A line is a case, and is printed again with its answer: `CASE => ANSWER`. An empty line, or one that begins with `#`, is
//! printed as it is. The table has bundle 1, `a` in version 1.0.0 from row 4 of a depot, bundle 2, `a` in version 2.0.0 from row 6,
//! and bundle 3, the fragment `f` from row 7, all installed and not resolved. The calls of a case stand with `; ` between:
//!
//! | Call | Answer |
//! |---|---|
//! | `resolved ID` | `set` where the bundle may be set as resolved, else `no` |
//! | `begin_start LINE ID`, `begin_stop LINE ID` | `run ROW`, `already`, or `refused NUMBER` |
//! | `end_start LINE ID`, `end_stop LINE ID`, with ` failed` or without | `ok` or `refused NUMBER` |
//! | `state ID` | the state by OSGi's number, or `none` |
//! | `id ID`, `name NAME` | the bundle that the target stands for, or `none` |
#![tactic(auto)]

mod calls;

use crate::calls::add_calls;
use cases_text::{Cases, answer_lines};
use std::alloc::{AllocError, Global};
use std::io;

/// Tables of bundles.
#[derive(Drop)]
struct TableCases;

impl Cases for TableCases {
    fn add_answer(
        &mut self,
        alloc: Global,
        out: &mut String,
        case: &str,
    ) -> Result<(), AllocError> {
        add_calls(alloc, out, case)
    }
}

fn main(rt: HostRuntime) -> io::Result<()> {
    answer_lines(&rt, &mut TableCases)
}
