//! The ends that a process has: any reader as a source, any writer as a sink.

ghost use Rattle.std.specs.Prelude.{None, refl};

use crate::counted::Counted;
use crate::sink::Sink;
use crate::source::{Failed, Source};
use std::io::{Read, Write};

/// A reader as a source. It does not expose the bytes that the reader has left.
pub type StdSource<R> = Counted<R>;

/// A writer as a sink. It does not expose the bytes that the writer holds.
pub type StdSink<W> = Counted<W>;

impl<R: Read> Source for Counted<R> {
    ghost left = { λ _. None };

    ghost faults = { λ s. s.faults };

    fn read(&mut self, buf: &mut [u8]) -> Result<usize, Failed> {
        match self.inner.read(buf) {
            Ok(count) => Ok(count),
            Err(_) => Err(self.fail()),
        }
    }
}

impl<W: Write> Sink for Counted<W> {
    ghost written = { λ _. None };

    ghost flushed = { λ _. None };

    ghost faults = { λ s. s.faults };

    ghost told_together = { λ s. refl };

    /// A writer that takes nothing of a piece that is not empty has failed.
    fn write(&mut self, buf: &[u8]) -> Result<usize, Failed> {
        match self.inner.write(buf) {
            Ok(0) if !buf.is_empty() => Err(self.fail()),
            Ok(count) => Ok(count),
            Err(_) => Err(self.fail()),
        }
    }

    fn flush(&mut self) -> Result<(), Failed> {
        match self.inner.flush() {
            Ok(()) => Ok(()),
            Err(_) => Err(self.fail()),
        }
    }
}
