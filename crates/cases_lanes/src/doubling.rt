//! Work that doubles numbers.

ghost use Rattle.std.specs.Prelude.{◌≡◌, ◌*◌, ◌≤◌};

use osgi_lanes::Work;
use std::sync::Wait;
use std::thread::Threads;

/// Doubles small numbers.
#[derive(Drop)]
pub struct Doubling;

impl Work for Doubling {
    type Lane = u32;

    type Done = u32;

    ghost accepts = { λ _ lane. lane ≤ 1000 };

    ghost gives = { λ _ lane done. done ≡ 2 * lane };

    fn run<R: Threads + Wait + Sync>(&self, _rt: &R, lane: u32) -> u32 {
        2 * lane
    }
}
