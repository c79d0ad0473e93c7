//! Many callers at once, each in a thread of its own, and every answer compared with the history.

ghost use Rattle.std.specs.Prelude.{◌≡◌, ◌+◌, ◌≤◌, All, IfOk, OnOk, vec_len};
ghost use Rattle.osgi_hall.specs.Passes.{IsPassOf, IsSamePass};

use crate::counter::{Answer, Counter};
use osgi_hall::{Closed, Entry, Hall, Pass};
use std::alloc::{AllocError, Global};
use std::sync::Wait;
use std::sync::atomic::{AtomicU64, Ordering};
use std::thread;
use std::thread::{Threads, map_vec};

/// How often a caller gives way to other threads while it waits for callers to come.
const MAX_YIELDS: u32 = 1_000_000;

/// A caller, and the totals that it was answered, call by call.
#[derive(Drop)]
pub struct Caller {
    pub number: u32,
    pub totals: Vec<u64>,
}

/// A counter after many calls, and its callers.
#[derive(Drop)]
pub struct Crowd {
    pub counter: Counter,
    pub callers: Vec<Caller>,
}

/// Where callers wait for one another before their first calls. None waits for ever, since there may be too few threads.
#[derive(Drop)]
pub struct Start {
    callers: u64,
    come: AtomicU64,
}

impl Start {
    pub fn new(callers: u32) -> Start {
        Start {
            callers: u64::from(callers),
            come: AtomicU64::new(0),
        }
    }

    pub fn meet(&self) {
        self.come.fetch_add(1, Ordering::SeqCst);
        for _ in 0..MAX_YIELDS {
            if self.come.load(Ordering::SeqCst) >= self.callers {
                return;
            }
            thread::yield_now();
        }
    }
}

impl Crowd {
    /// Whether each entry has its place as its total, since each call adds 1, and the entries of each caller are its answers,
    /// call by call.
    pub fn agrees_with_history(&self) -> bool {
        let history = self.counter.history();
        are_counted(history)
            && self
                .callers
                .iter()
                .all(|caller| caller.has_entries(history))
    }
}

/// Whether the totals of the entries are 1, 2 and so on.
fn are_counted(history: &[Entry<u64, Answer>]) -> bool {
    let mut place: u64 = 0;
    for entry in history {
        place = place.wrapping_add(1);
        if entry.reply != Answer::Total(place) {
            return false;
        }
    }
    true
}

impl Caller {
    /// Whether the caller's entries are just its calls with its totals, in order.
    fn has_entries(&self, history: &[Entry<u64, Answer>]) -> bool {
        let mut rest = self.totals.as_slice();
        let mut command: u32 = 0;
        for entry in history {
            if entry.tag.caller != self.number {
                continue;
            }
            let Some((first, others)) = rest.split_first() else {
                return false;
            };
            if entry.tag.command != command || entry.reply != Answer::Total(*first) {
                return false;
            }
            rest = others;
            command = command.wrapping_add(1);
        }
        rest.is_empty()
    }
}

/// So many calls of one caller, each of which adds 1. It ends early where there is no memory.
fn call_often<R: Wait>(
    rt: &R,
    alloc: Global,
    hall: &Hall<Counter>,
    pass: &mut Pass<Counter>,
    calls: u32,
) -> Vec<u64>
    requires hall { IsPassOf hall.now pass.old }
    ensures same { IsSamePass pass.old pass.new }
{
    let mut totals = Vec::new(alloc);
    for command in 0..calls {
        let Ok(Answer::Total(total)) = hall.call(rt, pass, command, 1, None) else {
            break;
        };
        if totals.push(total).is_err() {
            break;
        }
    }
    totals
}

fn call_all<R: Threads + Wait + Sync>(
    rt: &R,
    alloc: Global,
    hall: &Hall<Counter>,
    passes: Vec<Pass<Counter>>,
    calls: u32,
    start: &Start,
) -> Result<Vec<(Pass<Counter>, Vec<u64>)>, AllocError>
    requires hall { All (λ p. IsPassOf hall.now p) passes.items }
    ensures all { IfOk result (λ v. vec_len v ≡ vec_len passes) }
    ensures hall { IfOk result (λ v. All (λ t. IsPassOf hall.now t.0) v.items) }
{
    map_vec(
        rt,
        passes,
        &|pass| -> (Pass<Counter>, Vec<u64>)
            requires { IsPassOf hall.now pass }
            ensures { IsSamePass pass result.0 }
        {
            let mut pass = pass;
            start.meet();
            let totals = call_often(rt, alloc, hall, &mut pass, calls);
            (pass, totals)
        },
    )
}

fn split_all(
    alloc: Global,
    hall: &Hall<Counter>,
    first: &mut Pass<Counter>,
    callers: u32,
) -> Result<Vec<Pass<Counter>>, AllocError>
    requires hall { IsPassOf hall.now first.old }
    requires first { (first.old.caller ≡ 0) × (first.old.made + callers ≤ u32.MAX) }
    ensures hall { IfOk result (λ v. IsPassOf hall.now first.new × All (λ p. IsPassOf hall.now p) v.items) }
    ensures first { IfOk result (λ v. (first.new.caller ≡ 0) × (vec_len v ≡ callers) × (first.new.out ≡ first.old.out + callers)) }
{
    let mut passes = Vec::new(alloc);
    for _ in 0..callers {
        passes.push(hall.split(first)?)?;
    }
    Ok(passes)
}

fn join_all(
    alloc: Global,
    hall: &Hall<Counter>,
    first: &mut Pass<Counter>,
    mut ended: Vec<(Pass<Counter>, Vec<u64>)>,
) -> Result<Vec<Caller>, AllocError>
    requires hall { IsPassOf hall.now first.old × All (λ t. IsPassOf hall.now t.0) ended.items }
    requires first { first.old.caller ≡ 0 }
    ensures hall { OnOk result (IsPassOf hall.now first.new) }
    ensures first { OnOk result ((first.new.caller ≡ 0) × (first.old.out ≡ first.new.out + vec_len ended)) }
{
    let mut callers = Vec::new(alloc);
    while let Some((pass, totals)) = ended.pop() {
        let number = pass.caller();
        hall.join(first, pass);
        callers.push(Caller { number, totals })?;
    }
    Ok(callers)
}

/// A hall round a counter, so many callers each in a thread, so many calls of each, and the hall closed.
pub fn run<R: Threads + Wait + Sync>(
    rt: &R,
    alloc: Global,
    callers: u32,
    calls: u32,
) -> Result<Crowd, AllocError>
    requires few { callers ≤ 64 }
{
    let (hall, mut first) = Hall::new(alloc, Counter::new(alloc, u64::MAX))?;
    let passes = split_all(alloc, &hall, &mut first, callers)?;
    let ended = call_all(rt, alloc, &hall, passes, calls, &Start::new(callers))?;
    let callers = join_all(alloc, &hall, &mut first, ended)?;
    let Ok(Closed { machine }) = hall.close(first) else {
        unreachable!()
    };
    Ok(Crowd {
        counter: machine,
        callers,
    })
}
