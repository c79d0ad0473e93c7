//! Which calls of an end in memory are to fail.

ghost use Rattle.std.specs.Prelude.{◌≡◌, is_err};
ghost use Rattle.osgi_outside.specs.Causes.{HasCause};
ghost use Rattle.osgi_outside.specs.Scripted.{is_failing, after_call};

use crate::source::Failed;
use std::marker::Model;

/// The numbers of the calls that are to fail, counted from 1, and the counts so far. The counts stand
/// still at the end of their type.
#[derive(Drop)]
pub struct FaultScript {
    fail: Vec<u64>,
    calls: u64,
    faults: u64,
}

impl Model for FaultScript {
    ghost use Rattle.osgi_outside.specs.Scripted as seen;

    ghost Value = { seen.ScriptState };

    ghost view = { λ s. record { fail = s.fail.items; calls = s.calls; faults = s.faults } };
}

impl FaultScript {
    pub fn new(fail: Vec<u64>) -> FaultScript
        ensures fail { result.fail ≡ fail.items }
        ensures calls { result.calls ≡ 0 }
        ensures faults { result.faults ≡ 0 }
    {
        FaultScript {
            fail,
            calls: 0,
            faults: 0,
        }
    }

    pub fn faults(&self) -> u64
        ensures faults { result ≡ self.now.faults }
    {
        self.faults
    }

    /// Counts the next call, and fails where it is to fail.
    pub fn next(&mut self) -> Result<(), Failed>
        ensures fails { is_err result ≡ is_failing self.old }
        ensures counted { self.new ≡ after_call self.old }
        ensures cause { HasCause self.old.faults self.new.faults result }
    {
        self.calls = self.calls.saturating_add(1);
        if self.fail.contains(&self.calls) {
            self.faults = self.faults.saturating_add(1);
            return Err(Failed);
        }
        Ok(())
    }
}
