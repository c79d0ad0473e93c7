//! What a process reads, writes or finds bundles by, with a count of its failures.

ghost use Rattle.std.specs.Prelude.{◌≡◌, ◌≤◌};
ghost use Rattle.osgi_outside.specs.Causes.{Rose};

use crate::source::Failed;
use std::marker::Model;

/// A reader, a writer or a runtime, and how often it has failed.
#[derive(Drop)]
pub struct Counted<T> {
    pub(crate) inner: T,
    faults: u64,
}

impl<T> Model for Counted<T> {
    ghost use Rattle.osgi_outside.specs.Causes.{Counting, counting_code};

    ghost Value = { Counting T };

    ghost coded = { counting_code T.code };

    ghost view = { λ s. record { inner = s.inner; faults = s.faults } };
}

impl<T> Counted<T> {
    pub fn new(inner: T) -> Counted<T>
        ensures inner { result.inner ≡ inner }
        ensures faults { result.faults ≡ 0 }
    {
        Counted { inner, faults: 0 }
    }

    /// How often it has failed. The count stands still at the end of its type.
    pub fn faults(&self) -> u64
        ensures faults { result ≡ self.now.faults }
    {
        self.faults
    }

    /// Gives back what was counted.
    pub fn into_inner(self) -> T
        ensures inner { result ≡ self.inner }
    {
        let Counted { inner, faults: _ } = self;
        inner
    }

    /// Counts a failure.
    pub(crate) fn fail(&mut self) -> Failed
        ensures inner { self.new.inner ≡ self.old.inner }
        ensures later { self.old.faults ≤ self.new.faults }
        ensures rose { Rose self.old.faults self.new.faults }
    {
        self.faults = self.faults.saturating_add(1);
        Failed
    }
}
