//! Who makes calls.

ghost use Rattle.std.specs.Prelude.{◌≡◌, ℕ, Bool, List};
ghost use Rattle.osgi_ops.specs.declared.entry.Entry.{Entry};
ghost use Rattle.osgi_runner.specs.Calls.{IsCalled};

use osgi_ops::{Op, Reply};
use std::alloc::AllocError;

/// One caller of the framework, by its number, and the calls that it made.
pub trait Caller {
    /// The caller's entries, in order of the history. They are never more than the limit.
    ghost made: { Self → List Entry };

    /// The most entries that there can be.
    ghost limit: { Self → ℕ };

    /// Whether the history was seen to be as long as it may be.
    ghost full: { Self → Bool };

    /// The caller's number.
    ghost number: { Self → ℕ };

    /// The second is the first after some calls and sections: it is the same caller, which has gone on. What a caller is lent it
    /// holds by the same references then, and what it has seen has only grown.
    ghost goes_on: { Self → Self → Type 0 };

    /// Calls the framework for the line of this number. A full history refuses the call and does not record it. If memory runs
    /// out, nothing is recorded either.
    fn call(&mut self, command: u32, op: Op) -> Result<Reply, AllocError>
        ensures number { number self.new ≡ number self.old }
        ensures limit { limit self.new ≡ limit self.old }
        ensures goes { goes_on self.old self.new }
        ensures called { IsCalled result (limit self.old) (record { caller = number self.old; command = command }) op (full self.new) (made self.old) (made self.new) };

    /// A section begins. It changes no meaning.
    fn section(&mut self)
        ensures number { number self.new ≡ number self.old }
        ensures limit { limit self.new ≡ limit self.old }
        ensures goes { goes_on self.old self.new }
        ensures full { full self.new ≡ full self.old }
        ensures made { made self.new ≡ made self.old };

    /// With no call it has gone on too.
    ghost stays: { (s : Self) → goes_on s s };

    /// Who goes on twice goes on.
    ghost goes_further: { (s t u : Self) → goes_on s t → goes_on t u → goes_on s u };
}
