//! A source in memory, some of whose reads fail.

ghost use Rattle.std.specs.Prelude.{◌≡◌, Some, length, min, take, is_err, IfOk};
ghost use Rattle.std.specs.Io.{ReadsAtMost};
ghost use Rattle.std.specs.Io.KnownBytes.{ReadConsumes};
ghost use Rattle.osgi_outside.specs.Causes.{HasCause};
ghost use Rattle.osgi_outside.specs.Ends.{GivesNoneAtEnd};
ghost use Rattle.osgi_outside.specs.Scripted.{is_failing, after_call};

use crate::fault_script::FaultScript;
use crate::source::{Failed, Source};
use std::marker::Model;

/// Bytes to be read, and the numbers of the reads that are to fail, counted from 1.
#[derive(Drop)]
pub struct MemorySource {
    bytes: Vec<u8>,
    at: usize,
    script: FaultScript,
}

impl Model for MemorySource {
    ghost use Rattle.std.specs.Prelude.{◌≤◌, drop, vec_len};
    ghost use Rattle.osgi_outside.specs.Scripted.{SourceState};

    ghost Value = { SourceState };

    ghost view = { λ s. record { left = drop s.at s.bytes.items; script = s.script } };

    ghost invariant = { λ s. s.at ≤ vec_len s.bytes };
}

impl MemorySource {
    pub fn new(bytes: Vec<u8>, fail: Vec<u64>) -> MemorySource
        ensures left { result.left ≡ bytes.items }
        ensures fail { result.script.fail ≡ fail.items }
        ensures calls { result.script.calls ≡ 0 }
        ensures faults { result.script.faults ≡ 0 }
    {
        MemorySource {
            bytes,
            at: 0,
            script: FaultScript::new(fail),
        }
    }

    /// How often a read has failed.
    pub fn faults(&self) -> u64
        ensures faults { result ≡ self.now.script.faults }
    {
        self.script.faults()
    }
}

impl Source for MemorySource {
    ghost left = { λ s. Some s.left };

    ghost faults = { λ s. s.script.faults };

    /// Gives as many bytes as there are, up to the buffer's length.
    #[tactic(auto, using(crate::proofs::Moved::rest_of, std::proofs::lemmas::List::drop_all))]
    fn read(&mut self, buf: &mut [u8]) -> Result<usize, Failed>
        ensures bound { ReadsAtMost result buf.new }
        ensures bytes { ReadConsumes (Some self.old.left) (Some self.new.left) result buf.new }
        ensures zero { GivesNoneAtEnd (Some self.old.left) result buf.new }
        ensures cause { HasCause self.old.script.faults self.new.script.faults result }
        ensures count { IfOk result (λ n. n ≡ min (length self.old.left) (length buf.old)) }
        ensures fails { is_err result ≡ is_failing self.old.script }
        ensures counted { self.new.script ≡ after_call self.old.script }
    {
        self.script.next()?;
        let count = copy_start(&self.bytes[self.at..], buf);
        self.at += count;
        Ok(count)
    }
}

/// Copies as many bytes as fit, and says how many.
fn copy_start(from: &[u8], buf: &mut [u8]) -> usize
    ensures count { result ≡ min (length from.now) (length buf.old) }
    ensures bytes { take result buf.new ≡ take result from.now }
{
    let count = from.len().min(buf.len());
    buf[..count].copy_from_slice(&from[..count]);
    count
}
