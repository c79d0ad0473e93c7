//! Runs the machine, the readers and the filters again and again, for the measurements under `bench/`.
//!
//!     bench_machine run
//!     bench_machine clean
//!     bench_machine version|range|manifest|clauses|filter|match COUNT
//!
//! Each form takes its data from standard input. `run` takes blocks of console lines that a line of one `.` ends, and runs
//! them on one machine: it prints a line when a block is read and one when it has run, and the clock is whoever reads them.
//! `clean` runs them for a bundle that was started before, and prints one more line once it has stopped that after them.
//! The last form reads the text COUNT times, and prints how often it could be read, and the bytes of the text. `match` takes
//! a line `find CLASS FILTER` and a line `modify ID PROP..`, and matches the filter against the properties COUNT times.
#![tactic(auto)]

mod cleaning;
mod filters;
mod machine;
mod readers;

use anyhow::{Result, bail};
use std::{env, io};

/// Does what the words ask for with the text.
fn run(rt: &HostRuntime, words: &[String], text: &str) -> Result<()> {
    match words {
        [what] if what.as_str() == "run" => machine::run(rt, text),
        [what] if what.as_str() == "clean" => cleaning::run(rt, text),
        [what, count] => {
            let done = readers::repeat(rt.alloc(), what.as_str(), text, count.parse()?)?;
            println!(rt; "{done} of {} bytes", text.len())?;
            Ok(())
        }
        _ => bail!("takes run, clean, or what to read and how often"),
    }
}

fn main(rt: HostRuntime) -> Result<()> {
    let words: Vec<_> = env::args(&rt)?.skip(1).collect(rt.alloc())?;
    let text = io::read_to_string(rt.alloc(), rt.reader())?;
    run(&rt, words.as_slice(), text.as_str())
}
