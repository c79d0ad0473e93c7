//! A gate that counts.

use osgi_outside::{Gate, Point};
use std::alloc::AllocError;
use std::fmt::Write;
use std::sync::Wait;
use std::sync::atomic::{AtomicU64, Ordering};
use std::thread::Threads;

/// Holds nobody, and counts how often it is come to at each point.
#[derive(Drop)]
pub struct CountingGate {
    before: AtomicU64,
    after: AtomicU64,
    sections: AtomicU64,
}

impl CountingGate {
    pub fn new() -> CountingGate {
        CountingGate {
            before: AtomicU64::new(0),
            after: AtomicU64::new(0),
            sections: AtomicU64::new(0),
        }
    }

    /// Appends the counts.
    pub fn put(&self, out: &mut String) -> Result<(), AllocError> {
        let before = self.before.load(Ordering::SeqCst);
        let after = self.after.load(Ordering::SeqCst);
        let sections = self.sections.load(Ordering::SeqCst);
        write!(
            out,
            " | gate {before} before calls, {after} after, {sections} in sections"
        )
    }
}

impl Gate for CountingGate {
    fn at<R: Threads + Wait + Sync>(&self, _rt: &R, _lane: u32, point: Point) {
        let count = match point {
            Point::BeforeCall => &self.before,
            Point::AfterCall => &self.after,
            Point::InSection => &self.sections,
        };
        count.fetch_add(1, Ordering::SeqCst);
    }
}
