//! Where bytes go.

ghost use Rattle.std.specs.Prelude.{◌≡◌, ◌<◌, ℕ, List, Option, length, is_some, IfOk, OnOk};
ghost use Rattle.std.specs.Io.{WritesAtMost};
ghost use Rattle.std.specs.Io.KnownBytes.{WriteAppends, Keeps};
ghost use Rattle.osgi_outside.specs.Causes.{HasCause};

use crate::source::Failed;

/// A place that bytes are written to, in order. It counts its failures.
pub trait Sink {
    /// The bytes that were written, if the sink exposes them.
    ghost written: { Self → Option (List ℕ) };

    /// The bytes that were flushed, if the sink exposes them.
    ghost flushed: { Self → Option (List ℕ) };

    /// How often a write or a flush has failed.
    ghost faults: { Self → ℕ };

    /// Takes bytes from the start of `buf`, and says how many: at least one where `buf` is not empty. A
    /// write that failed takes none.
    fn write(&mut self, buf: &[u8]) -> Result<usize, Failed>
        ensures bound { WritesAtMost result buf.now }
        ensures some { IfOk result (λ n. 0 < length buf.now → 0 < n) }
        ensures bytes { WriteAppends (written self.old) (written self.new) result buf.now }
        ensures cause { HasCause (faults self.old) (faults self.new) result };

    /// Hands on what was written so far.
    fn flush(&mut self) -> Result<(), Failed>
        ensures bytes { Keeps (written self.old) (written self.new) }
        ensures flushed { OnOk result (flushed self.new ≡ written self.new) }
        ensures cause { HasCause (faults self.old) (faults self.new) result };

    /// A sink that exposes what was written exposes what was flushed.
    ghost told_together: { (s : Self) → is_some (written s) ≡ is_some (flushed s) };
}
