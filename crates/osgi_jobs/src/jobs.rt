//! The queue.

ghost use Rattle.std.specs.Prelude.{◌≡◌, ◌↔◌, ◌≤◌, ◌+◌, [], length, Some, IsTrue, OnOk, OnErr};
ghost use Rattle.std.specs.Bool.{OnFalse};
ghost use Rattle.std.specs.Option.{option_copied, option_map};
ghost use Rattle.osgi_ops.specs.Jobs.{clears, queues, takes, with_jobs};
ghost use Rattle.osgi_ops.specs.declared.limits.TheConstants.{MAX_JOBS};
ghost use Rattle.osgi_jobs.specs.Queue.{oldest_in, queued_of};
ghost use Rattle.osgi_jobs.specs.computed.Kept.{AreCounted, counted_in, IsFrontQueued, queued_in};

use crate::counts::{BundleCount, count_of, recount};
use crate::job::QueuedJob;
use osgi_base::{BundleId, NumberMap, Text};
use osgi_ops::MAX_JOBS;
use std::alloc::{AllocError, Global};
use std::collections::VecDeque;
use std::marker::Model;

/// The jobs that are queued, the oldest first.
///
/// When a bundle is cleaned, its jobs stay where they stand and are counted as cleaned, and each goes when it comes to the front.
/// So no call looks at the jobs of other bundles, and each job that was queued is taken from the front once.
pub struct Jobs {
    /// Those that are queued, and those that were cleaned since and have not come to the front.
    standing: VecDeque<QueuedJob>,
    counts: NumberMap<BundleCount>,
    /// How many are queued.
    queued: usize,
}

/// Not derived, so that each exit at which one is dropped is a single call, which is cheap to prove.
impl Drop for Jobs {
    fn drop(self) {
        let Jobs {
            standing: _,
            counts: _,
            queued: _,
        } = self;
    }
}

impl Model for Jobs {
    ghost use Rattle.std.specs.Prelude.{List, map};
    ghost use Rattle.osgi_ops.specs.Jobs.{Queued};
    ghost use Rattle.osgi_jobs.specs.Queue.{queued_of};
    ghost use Rattle.osgi_jobs.specs.computed.Kept.{counted_in, IsKept, queued_in};

    ghost Value = { List Queued };

    ghost view = { λ j. map queued_of (queued_in (counted_in j.counts) j.standing.items) };

    ghost invariant = { λ j. IsKept (counted_in j.counts) j.standing.items j.queued };
}

/// Drops those at the front that were cleaned.
fn drop_cleaned(standing: &mut VecDeque<QueuedJob>, counts: &mut NumberMap<BundleCount>)
    requires counted { AreCounted (counted_in counts.old) standing.old.items }
    ensures counted { AreCounted (counted_in counts.new) standing.new.items }
    ensures queued { queued_in (counted_in counts.new) standing.new.items
        ≡ queued_in (counted_in counts.old) standing.old.items }
    ensures front { IsFrontQueued (counted_in counts.new) standing.new.items }
{
    while drop_front(standing, counts) {}
}

/// Drops the one at the front if it was cleaned, and says whether it did.
fn drop_front(standing: &mut VecDeque<QueuedJob>, counts: &mut NumberMap<BundleCount>) -> bool
    requires counted { AreCounted (counted_in counts.old) standing.old.items }
    ensures counted { AreCounted (counted_in counts.new) standing.new.items }
    ensures queued { queued_in (counted_in counts.new) standing.new.items
        ≡ queued_in (counted_in counts.old) standing.old.items }
    ensures fewer { IsTrue result → length standing.new.items + 1 ≡ length standing.old.items }
    ensures front { OnFalse result (IsFrontQueued (counted_in counts.new) standing.new.items) }
{
    let Some(job) = standing.front() else {
        return false;
    };
    let owner = job.owner;
    let before = count_of(counts, owner);
    if before.cleaned == 0 {
        return false;
    }
    standing.pop_front();
    recount(
        counts,
        owner,
        BundleCount {
            standing: before.standing - 1,
            cleaned: before.cleaned - 1,
        },
    );
    true
}

impl Jobs {
    /// None is queued.
    pub fn new(alloc: Global) -> Jobs
        ensures none { result ≡ [] }
    {
        Jobs {
            standing: VecDeque::new(alloc),
            counts: NumberMap::new(alloc),
            queued: 0,
        }
    }

    /// Whether as many are queued as may be.
    pub fn is_full(&self) -> bool
        ensures full { IsTrue result ↔ MAX_JOBS ≤ length self.now }
    {
        self.queued >= MAX_JOBS
    }

    /// The oldest, if one is queued.
    pub fn oldest(&self) -> Option<&QueuedJob>
        ensures oldest { option_map queued_of (option_copied result) ≡ oldest_in self.now }
    {
        self.standing.front()
    }

    /// Queues a job. If memory runs out, none is queued.
    pub fn queue(&mut self, owner: BundleId, name: Text) -> Result<(), AllocError>
        ensures queued { OnOk result
            (self.new ≡ with_jobs (Some (queues (record { owner = owner; name = name }))) self.old) }
        ensures unchanged { OnErr result (self.new ≡ self.old) }
    {
        self.standing.reserve(1)?;
        let before = count_of(&self.counts, owner);
        let more = BundleCount {
            standing: before.standing + 1,
            cleaned: before.cleaned,
        };
        self.counts.insert(owner.0, more)?;
        self.standing.push_back_reserved(QueuedJob { owner, name });
        self.queued += 1;
        Ok(())
    }

    /// Takes out the oldest, if one is queued. It takes no memory.
    pub fn take(&mut self)
        ensures taken { self.new ≡ with_jobs (Some takes) self.old }
    {
        let Some(job) = self.standing.pop_front() else {
            return;
        };
        let before = count_of(&self.counts, job.owner);
        let fewer = BundleCount {
            standing: before.standing - 1,
            cleaned: 0,
        };
        recount(&mut self.counts, job.owner, fewer);
        self.queued -= 1;
        drop_cleaned(&mut self.standing, &mut self.counts);
    }

    /// Takes out those of a bundle, without a look at the others. It takes no memory.
    pub fn clear(&mut self, owner: BundleId)
        ensures cleared { self.new ≡ with_jobs (Some (clears owner)) self.old }
    {
        let before = count_of(&self.counts, owner);
        if before.standing == 0 {
            return;
        }
        let none = BundleCount {
            standing: before.standing,
            cleaned: before.standing,
        };
        recount(&mut self.counts, owner, none);
        self.queued -= before.standing - before.cleaned;
        drop_cleaned(&mut self.standing, &mut self.counts);
    }
}
