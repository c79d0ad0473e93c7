//! Has a counter called by many threads, for the measurements under `bench/`.
//!
//!     bench_hall hall|mutex CALLERS CALLS
//!
//! Each of CALLERS threads makes CALLS calls that add 1, through a hall or under a mutex. A line is printed before the first call
//! and one after the last: the clock is whoever reads them. Then every answer is compared with the history.
#![tactic(auto)]

use anyhow::{Result, bail};
use cases_hall::{Answer, Caller, Counter, Crowd, run};
use osgi_base::Tag;
use osgi_hall::Machine;
use std::alloc::{AllocError, Global};
use std::env;
use std::sync::{Mutex, Wait};
use std::thread::{Threads, map_indices};

/// As many threads as a run may have.
const MAX_CALLERS: u32 = 64;

/// So many calls of one caller, each under the mutex. It ends early where there is no memory.
fn lock_often<R: Wait>(
    rt: &R,
    alloc: Global,
    counter: &Mutex<Counter>,
    number: u32,
    calls: u32,
) -> Caller {
    let mut totals = Vec::new(alloc);
    for command in 0..calls {
        let answer = counter.lock(rt).apply(
            Tag {
                caller: number,
                command,
            },
            1,
            None,
        );
        let Ok(Answer::Total(total)) = answer else {
            break;
        };
        if totals.push(total).is_err() {
            break;
        }
    }
    Caller { number, totals }
}

/// The same calls as `crowd::run` makes, under a mutex.
fn run_mutex<R: Threads + Wait + Sync>(
    rt: &R,
    alloc: Global,
    callers: u32,
    calls: u32,
) -> Result<Crowd, AllocError> {
    let counter = Mutex::new(Counter::new(alloc, u64::MAX));
    let callers = map_indices(
        rt,
        alloc,
        callers as usize,
        &|number| { lock_often(rt, alloc, &counter, number as u32, calls) },
    )?;
    Ok(Crowd {
        counter: counter.into_inner(),
        callers,
    })
}

/// The calls that the words ask for, of at most MAX_CALLERS.
fn run_kind<R: Threads + Wait + Sync>(
    rt: &R,
    alloc: Global,
    kind: &str,
    callers: u32,
    calls: u32,
) -> Result<Crowd> {
    if callers > MAX_CALLERS {
        bail!("more than {MAX_CALLERS} callers");
    }
    match kind {
        "hall" => Ok(run(rt, alloc, callers, calls)?),
        "mutex" => Ok(run_mutex(rt, alloc, callers, calls)?),
        _ => bail!("takes hall or mutex, CALLERS and CALLS"),
    }
}

/// Makes the calls, between two lines, and compares every answer with the history.
fn measure<R: Print + Threads + Wait + Sync>(
    rt: &R,
    alloc: Global,
    kind: &str,
    callers: u32,
    calls: u32,
) -> Result<()> {
    println!(rt; "begin")?;
    let crowd = run_kind(rt, alloc, kind, callers, calls)?;
    let made = u64::from(callers) * u64::from(calls);
    println!(rt; "{made} calls")?;
    if crowd.counter.length() != made || !crowd.agrees_with_history() {
        bail!("the answers are not those of the history");
    }
    println!(rt; "each answered as the history says")?;
    Ok(())
}

fn main(rt: HostRuntime) -> Result<()> {
    let words: Vec<_> = env::args(&rt)?.skip(1).collect(rt.alloc())?;
    let [kind, callers, calls] = words.as_slice() else {
        bail!("takes hall or mutex, CALLERS and CALLS");
    };
    measure(
        &rt,
        rt.alloc(),
        kind.as_str(),
        callers.parse()?,
        calls.parse()?,
    )
}
