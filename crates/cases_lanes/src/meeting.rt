//! Work for which all lanes have to run at the same time.

ghost use Rattle.std.specs.Prelude.{◌≡◌, ⊤};

use osgi_lanes::Work;
use std::sync::Wait;
use std::sync::atomic::{AtomicU64, Ordering};
use std::thread;
use std::thread::Threads;

/// How often a lane gives way to other threads while it waits for the others to come. None waits for ever.
const MAX_YIELDS: u32 = 1_000_000;

/// Where so many lanes meet.
#[derive(Drop)]
pub struct Meeting {
    lanes: u64,
    come: AtomicU64,
}

/// What came of a lane: whether it met the others.
#[derive(Drop)]
pub struct Met {
    pub lane: u32,
    pub all: bool,
}

impl Meeting {
    pub fn new(lanes: u64) -> Meeting {
        Meeting {
            lanes,
            come: AtomicU64::new(0),
        }
    }

    fn is_complete(&self) -> bool {
        self.come.load(Ordering::SeqCst) == self.lanes
    }
}

impl Work for Meeting {
    type Lane = u32;

    type Done = Met;

    ghost accepts = { λ _ _. ⊤ };

    ghost gives = { λ _ lane met. met.lane ≡ lane };

    fn run<R: Threads + Wait + Sync>(&self, _rt: &R, lane: u32) -> Met {
        self.come.fetch_add(1, Ordering::SeqCst);
        for _ in 0..MAX_YIELDS {
            if self.is_complete() {
                return Met { lane, all: true };
            }
            thread::yield_now();
        }
        Met { lane, all: false }
    }
}
