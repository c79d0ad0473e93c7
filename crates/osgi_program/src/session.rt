//! What the top call answers.

use osgi_base::List;
use osgi_ops::{Depot, Entry, Peek};
use osgi_session::{Line, Scripts};

/// The lines of an input, the depot that they ran with, and the history that they made.
pub struct Session {
    /// All lines of the input, in order.
    pub lines: List<Line>,
    /// The history, which replays from the empty framework.
    pub entries: List<Entry>,
    /// How many entries handed an event to a listener.
    pub handings: u64,
    /// The folders that the lines name, as they were read before the first line ran.
    pub depot: Depot,
    /// The scripts of the depot's rows, in their order.
    pub scripts: Scripts,
    /// What lines found that peeked, without an entry. None so far: there is no word for it yet.
    pub peeks: List<Peek>,
}

/// Not derived, so that each exit at which one is dropped is a single call, which is cheap to prove.
impl Drop for Session {
    fn drop(self) {
        let Session {
            lines: _,
            entries: _,
            handings: _,
            depot: _,
            scripts: _,
            peeks: _,
        } = self;
    }
}

/// How many bytes an input may have.
pub(crate) const MAX_INPUT: usize = 1_048_576;

/// The words of the command line are faulty.
pub const FAULTY_WORDS: u8 = 2;

pub(crate) const READ_FAILED: u8 = 3;

pub(crate) const WRITE_FAILED: u8 = 4;

/// Memory ran out.
pub const NO_MEMORY: u8 = 5;

pub(crate) const INPUT_TOO_LONG: u8 = 6;

/// A line found the history full, or enough handed.
pub(crate) const CUT: u8 = 7;

/// A line is outside the grammar, or a reply is a refusal.
pub(crate) const TROUBLED: u8 = 1;

pub(crate) const DONE: u8 = 0;

/// How a run of the program ended.
pub struct Finished {
    /// The first of these that holds. 2: the words do not ask for a run; nothing was read. 3: a read
    /// failed. 6: the input has more than 1,048,576 bytes. 4: a write or a flush failed. 7: a line with a
    /// command found the history full, or a Hand was refused since enough events were handed. 1: a line is
    /// outside the grammar, or a reply is a refusal. 0: otherwise. And 5 in place of any but 2: memory ran
    /// out, and nothing was written.
    pub status: u8,
    /// None on 2, 3 and 6, and where memory ran out before the hall was made.
    pub session: Option<Session>,
}

/// Not derived, so that each exit at which one is dropped is a single call, which is cheap to prove.
impl Drop for Finished {
    fn drop(self) {
        let Finished {
            status: _,
            session: _,
        } = self;
    }
}

impl Finished {
    ghost use Rattle.std.specs.Prelude.{◌≡◌, None};

    /// An end without a session.
    pub(crate) fn bare(status: u8) -> Finished
        ensures status { result.status ≡ status }
        ensures session { result.session ≡ None }
    {
        Finished {
            status,
            session: None,
        }
    }
}
