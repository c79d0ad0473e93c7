//! Lanes that run side by side.

ghost use Rattle.std.specs.Prelude.{◌≡◌, ◌≤◌, [], All, IfOk, IfErr, vec_len, vec_capacity};
ghost use Rattle.std.specs.List.{AllZip};
ghost use denote.Param.Send.{IsSync, IsSend};

use crate::work::Work;
use std::alloc::{AllocError, Global};
use std::marker::{Send, Sync};
use std::sync::Wait;
use std::thread::{Threads, join};

/// Does the work for each lane, and gives what came of them, in their order. Each runs in a thread of its own; where none can be
/// made, in this one, after those before it. If memory runs out it does so before any lane runs, and the lanes are handed back.
pub fn run_lanes<R: Threads + Wait + Sync, W: Work + Sync>(
    rt: &R,
    alloc: Global,
    work: &W,
    lanes: Vec<W::Lane>,
) -> Result<Vec<W::Done>, Vec<W::Lane>>
where
    W::Lane: Send + Drop,
    W::Done: Send + Drop,
    requires accepted { All (W.accepts work.now) lanes.items }
    ensures given { IfOk result (λ done. AllZip (W.gives work.now) lanes.items done.items) }
    ensures back { IfErr result (λ kept. kept.items ≡ lanes.items) }
{
    let mut done = Vec::new(alloc);
    match done.reserve(lanes.len()) {
        Ok(()) => Ok(run_all(rt, work, lanes, done)),
        Err(AllocError) => Err(lanes),
    }
}

/// Puts what comes of the lanes into `done`, which has room for it. The last lane goes to a new thread, and this one goes on with
/// the others.
#[cycle(lanes)]
fn run_all<R: Threads + Wait + Sync, W: Work + Sync>(
    rt: &R,
    work: &W,
    mut lanes: Vec<W::Lane>,
    done: Vec<W::Done>,
) -> Vec<W::Done>
where
    W::Lane: Send + Drop,
    W::Done: Send + Drop,
    requires accepted { All (W.accepts work.now) lanes.items }
    requires empty { done.items ≡ [] }
    requires room { vec_len lanes ≤ vec_capacity done }
    ensures given { AllZip (W.gives work.now) lanes.items result.items }
    ensures room { vec_capacity done ≤ vec_capacity result }
{
    let Some(last) = lanes.pop() else {
        return done;
    };
    let this = move || -> W::Done
        requires { IsSync R.row × IsSync W.row × W.accepts work.now last }
        ensures { W.gives work.entry.now last result }
    { work.run(rt, last) };
    let others = move || -> Vec<W::Done>
        requires { IsSync R.row × IsSync W.row × IsSend W.Lane.row × IsSend W.Done.row × All (W.accepts work.now) lanes.items × (done.items ≡ []) × (vec_len lanes ≤ vec_capacity done) }
        ensures { AllZip (W.gives work.entry.now) lanes.items result.items × (vec_capacity done ≤ vec_capacity result) }
    { run_all(rt, work, lanes, done) };
    let (one, mut all) = join(rt, this, others);
    all.push_reserved(one);
    all
}
