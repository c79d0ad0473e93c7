//! Reads plans of standard input: a command, and what each of its steps is answered. Prints each with its steps.
//!
//! A line is a case, and is printed again with its answer: `CASE => ANSWER`. An empty line, or one that begins with `#`, is
//! printed as it is.
//!
//! A case is `OWNER COMMAND [ARG..]`, and then ` | ` and an answer for each step but the last. Arguments are numbers, or a text
//! that comes last; `start`, `stop` have a second number, 1 for a transient one. An answer to an operation is a reply with
//! its numbers (`Begun 3 0`, `Closure 2 1` with the active bundles, `Best` alone for none), or a refusal (`Refused`, `SectionFailed`,
//! `TooDeep`); to a section it is `ran` or `failed`, to a drain `drained`.
//!
//! The steps are written with `; ` between: an operation by its name, its numbers, its text, and `transient` or `failed`; `run ROW
//! OWNER SECTION`; `drain`; or `end`, `end refused`, `end failed` or `end SERVICE`. A case with an answer that does not fit
//! ends with `no such answer`.
//!
//! A case `runs COMMAND [ARG..]` is run by a runner, whose caller is answered by the replies behind it, `NoJob` and `Nothing` among
//! them; the bundle of row 1 starts another in its start section, and that of row 2 fails in its stop section. An event is handed by
//! `Handed LISTENER BUNDLE ROW SERVICE NAME`, service 0 standing for an event of the framework; row 3 has a section `n`, which gets
//! the service of the event, `r`, which registers one, and `f`, which fails. A job is taken by `Job BUNDLE ROW NAME`; row 3 has jobs
//! `n`, which queues a job, `r` and `f`. `HistoryFull` and `HandingsSpent` cut the run. The answer has the operations that were
//! recorded, how many sections began, and `done`, `cut` or `no more replies`.
//!
//! A case `drains REPLY | REPLY..` is one drain, answered alike.
#![tactic(auto)]

mod commands;
mod replies;
mod runs;
mod scripts;
mod shown;
mod walks;
mod words;

use crate::runs::{add_drain, add_run};
use crate::walks::add_walk;
use cases_text::{Cases, answer_lines, split_word};
use std::alloc::{AllocError, Global};
use std::io;

/// Plans.
#[derive(Drop)]
struct PlanCases;

impl Cases for PlanCases {
    fn add_answer(
        &mut self,
        alloc: Global,
        out: &mut String,
        case: &str,
    ) -> Result<(), AllocError> {
        match split_word(case) {
            ("runs", case) => add_run(alloc, out, case),
            ("drains", replies) => add_drain(alloc, out, replies),
            _ => add_walk(alloc, out, case),
        }
    }
}

fn main(rt: HostRuntime) -> io::Result<()> {
    answer_lines(&rt, &mut PlanCases)
}
