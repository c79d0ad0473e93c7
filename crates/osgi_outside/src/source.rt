//! Where bytes come from.

ghost use Rattle.std.specs.Prelude.{ℕ, List, Option};
ghost use Rattle.std.specs.Io.{ReadsAtMost};
ghost use Rattle.std.specs.Io.KnownBytes.{ReadConsumes};
ghost use Rattle.osgi_outside.specs.Causes.{HasCause};
ghost use Rattle.osgi_outside.specs.Ends.{GivesNoneAtEnd};

/// A read, a write or a flush that did not come about.
#[derive(Clone, Copy, PartialEq, Eq)]
pub struct Failed;

/// A place that bytes are read from, in order. It counts its failures.
pub trait Source {
    /// The bytes that are left, if the source exposes them.
    ghost left: { Self → Option (List ℕ) };

    /// How often a read has failed.
    ghost faults: { Self → ℕ };

    /// Moves bytes from the start of what is left to the start of `buf`, and says how many: 0 where `buf`
    /// is empty or nothing is left. A read that failed moves none.
    fn read(&mut self, buf: &mut [u8]) -> Result<usize, Failed>
        ensures bound { ReadsAtMost result buf.new }
        ensures bytes { ReadConsumes (left self.old) (left self.new) result buf.new }
        ensures zero { GivesNoneAtEnd (left self.old) result buf.new }
        ensures cause { HasCause (faults self.old) (faults self.new) result };
}
