//! What a program of cases does with its standard input.

use std::alloc::{AllocError, Global};
use std::io;

/// What answers the cases of a program, one after another.
pub trait Cases {
    /// Adds the answer to a case.
    fn add_answer(&mut self, alloc: Global, out: &mut String, case: &str) -> Result<(), AllocError>;
}

/// Prints a line again: with its answer if it is a case, as it is where it is empty or begins with `#`.
pub fn answer_line<R: AllocGlobal + Print, C: Cases>(
    rt: &R,
    cases: &mut C,
    line: &str,
) -> io::Result<()> {
    if line.is_empty() || line.starts_with('#') {
        return println!(rt; "{line}");
    }
    let mut answer = String::new(rt.alloc());
    cases.add_answer(rt.alloc(), &mut answer, line)?;
    println!(rt; "{line} => {answer}")
}

/// Prints each line of standard input again, each case with its answer, as `CASE => ANSWER`.
pub fn answer_lines<R: AllocGlobal + Input + Print, C: Cases>(
    rt: &R,
    cases: &mut C,
) -> io::Result<()> {
    for line in rt.lines(rt.alloc()) {
        answer_line(rt, cases, line?.as_str())?;
    }
    Ok(())
}
