//! A sink in memory, some of whose calls fail.

ghost use Rattle.std.specs.Prelude.{◌≡◌, ◌<◌, ◌+◌, ◌&&◌, refl, true, Some, [], length, not, is_err, IfOk, OnOk, if◌then◌else◌};
ghost use Rattle.std.specs.Io.{WritesAtMost};
ghost use Rattle.std.specs.Io.KnownBytes.{WriteAppends, Keeps};
ghost use Rattle.osgi_outside.specs.Causes.{HasCause};
ghost use Rattle.osgi_outside.specs.Scripted.{is_failing, after_call, one_more};

use crate::fault_script::FaultScript;
use crate::sink::Sink;
use crate::source::Failed;
use std::alloc::{AllocError, Global};
use std::marker::Model;

/// Bytes that were written, and the numbers of the calls that are to fail: writes and flushes together,
/// counted from 1.
#[derive(Drop)]
pub struct MemorySink {
    bytes: Vec<u8>,
    flushed: usize,
    script: FaultScript,
    starved: u64,
}

impl Model for MemorySink {
    ghost use Rattle.std.specs.Prelude.{◌≤◌, take, vec_len};
    ghost use Rattle.osgi_outside.specs.Scripted.{SinkState};

    ghost Value = { SinkState };

    ghost view = { λ s. record { written = s.bytes.items; flushed = take s.flushed s.bytes.items; script = s.script; starved = s.starved } };

    ghost invariant = { λ s. s.flushed ≤ vec_len s.bytes };
}

impl MemorySink {
    pub fn new(alloc: Global, fail: Vec<u64>) -> Result<MemorySink, AllocError>
        ensures written { IfOk result (λ sink. sink.written ≡ []) }
        ensures flushed { IfOk result (λ sink. sink.flushed ≡ []) }
        ensures fail { IfOk result (λ sink. sink.script.fail ≡ fail.items) }
        ensures calls { IfOk result (λ sink. sink.script.calls ≡ 0) }
        ensures faults { IfOk result (λ sink. sink.script.faults ≡ 0) }
        ensures starved { IfOk result (λ sink. sink.starved ≡ 0) }
    {
        Ok(MemorySink {
            bytes: Vec::new(alloc),
            flushed: 0,
            script: FaultScript::new(fail),
            starved: 0,
        })
    }

    /// All bytes that were written.
    pub fn written(&self) -> &[u8]
        ensures written { result.now ≡ self.now.written }
    {
        self.bytes.as_slice()
    }

    /// The bytes that were flushed: the first of those that were written.
    pub fn flushed(&self) -> &[u8]
        ensures flushed { result.now ≡ self.now.flushed }
    {
        &self.bytes[..self.flushed]
    }

    /// How often a listed write or flush has failed.
    pub fn faults(&self) -> u64
        ensures faults { result ≡ self.now.script.faults }
    {
        self.script.faults()
    }

    /// How often a write failed because no memory was found for its bytes.
    pub fn starved(&self) -> u64
        ensures starved { result ≡ self.now.starved }
    {
        self.starved
    }
}

impl Sink for MemorySink {
    ghost written = { λ s. Some s.written };

    ghost flushed = { λ s. Some s.flushed };

    ghost faults = { λ s. s.script.faults + s.starved };

    ghost told_together = { λ s. refl };

    /// Takes all bytes. A write that is not listed fails only where memory runs out, and counts that.
    fn write(&mut self, buf: &[u8]) -> Result<usize, Failed>
        ensures bound { WritesAtMost result buf.now }
        ensures some { IfOk result (λ n. 0 < length buf.now → 0 < n) }
        ensures bytes { WriteAppends (Some self.old.written) (Some self.new.written) result buf.now }
        ensures cause { HasCause (self.old.script.faults + self.old.starved) (self.new.script.faults + self.new.starved) result }
        ensures whole { IfOk result (λ n. n ≡ length buf.now) }
        ensures fails { is_failing self.old.script ≡ true → is_err result ≡ true }
        ensures counted { self.new.script ≡ after_call self.old.script }
        ensures starved { self.new.starved ≡ (if is_err result && not (is_failing self.old.script) then one_more self.old.starved else self.old.starved) }
        ensures flushed { self.new.flushed ≡ self.old.flushed }
    {
        self.script.next()?;
        if self.bytes.extend_from_slice(buf).is_err() {
            self.starved = self.starved.saturating_add(1);
            return Err(Failed);
        }
        Ok(buf.len())
    }

    fn flush(&mut self) -> Result<(), Failed>
        ensures bytes { Keeps (Some self.old.written) (Some self.new.written) }
        ensures flushed { OnOk result (Some self.new.flushed ≡ Some self.new.written) }
        ensures cause { HasCause (self.old.script.faults + self.old.starved) (self.new.script.faults + self.new.starved) result }
        ensures fails { is_err result ≡ is_failing self.old.script }
        ensures counted { self.new.script ≡ after_call self.old.script }
        ensures starved { self.new.starved ≡ self.old.starved }
        ensures not_flushed { is_err result ≡ true → self.new.flushed ≡ self.old.flushed }
    {
        self.script.next()?;
        self.flushed = self.bytes.len();
        Ok(())
    }
}
