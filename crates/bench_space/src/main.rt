//! Asks the class spaces of worlds of many bundles, for the measurements under `bench/`.
//!
//!     bench_space chain|row|wide COUNT consistent|sources TIMES
//!
//! A world of COUNT bundles is made, and the question is asked TIMES times: whether the wirings are consistent, or which packages
//! each revision sees, with all their sources. A line is printed before and one after: the clock is whoever reads them. The
//! second line says how often the wirings were consistent, or how many sources there were.
//!
//! In a `chain` each bundle imports the package of the bundle before it, and its own package uses that one. In a `row` each
//! bundle requires the one before with reexport. In a `wide` world each bundle has 50 packages, each of which uses all of these
//! and the one that it imports from the bundle before.
#![tactic(auto)]

mod bundles;
mod questions;
mod shapes;

use crate::questions::ask;
use crate::shapes::{Shape, world};
use anyhow::{Result, bail};
use std::env;

fn main(rt: HostRuntime) -> Result<()> {
    let words: Vec<_> = env::args(&rt)?.skip(1).collect(rt.alloc())?;
    let [shape, count, question, times] = words.as_slice() else {
        bail!("takes chain, row or wide, COUNT, consistent or sources, and TIMES");
    };
    let shape = Shape::of(shape.as_str());
    let count: u32 = count.parse()?;
    let times: u32 = times.parse()?;
    let world = world(rt.alloc(), &shape, count)?;
    println!(rt; "begin")?;
    let found = ask(rt.alloc(), question.as_str(), &world, times)?;
    println!(rt; "{found}")?;
    Ok(())
}
