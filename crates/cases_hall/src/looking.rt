//! A caller that looks before it calls.

ghost use Rattle.osgi_hall.specs.Passes.{IsPassOf, IsSamePass};

use crate::counter::{Answer, Counter};
use osgi_hall::{Hall, Pass};
use std::alloc::AllocError;
use std::sync::Wait;

/// Asks how many entries there are, and calls with their number as a hint. Answers both.
#[tactic(auto, using(crate::proofs::Hints::seen_counts))]
pub fn look_and_call<R: Wait>(
    rt: &R,
    hall: &Hall<Counter>,
    pass: &mut Pass<Counter>,
    command: u32,
    op: u64,
) -> Result<(u64, Answer), AllocError>
    requires hall { IsPassOf hall.now pass.old }
    ensures same { IsSamePass pass.old pass.new }
{
    let count = hall.view(rt, pass, ())?;
    let answer = hall.call(rt, pass, command, op, Some(count))?;
    Ok((count, answer))
}
