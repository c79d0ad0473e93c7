//! What is done for each lane.

ghost use denote.Param.Send.{IsSync};

use std::sync::Wait;
use std::thread::Threads;

/// Work that is done for one lane at a time, by several threads at once, and gives something back for each.
pub trait Work {
    /// What a lane is handed. It is moved into the lane's thread.
    type Lane;

    /// What a lane gives back.
    type Done;

    /// The lanes for which the work can be done.
    ghost accepts: { Self → Self.Lane → Type 0 };

    /// What may come of a lane.
    ghost gives: { Self → Self.Lane → Self.Done → Type 0 };

    /// Does the work for one lane. It may wait, but not for another lane to begin: that may come after it in one thread.
    fn run<R: Threads + Wait + Sync>(&self, rt: &R, lane: Self::Lane) -> Self::Done
        requires sync { IsSync R.row }
        requires accepts { accepts self.now lane }
        ensures gives { gives self.now lane result };
}
