//! What a hall asks of the machine that it keeps.

ghost use Rattle.std.specs.Prelude.{◌≡◌, Bool, List, length, IfOk, IfSome};
ghost use Rattle.osgi_hall.specs.declared.entry.Entry.{Entry};
ghost use Rattle.osgi_hall.specs.Histories.{TellsOfPrefix, IsApplied};

use osgi_base::Tag;
use std::alloc::AllocError;
use std::sync::Wait;

/// A machine that does one operation at a time, answers it, and keeps a history of what it did.
pub trait Machine {
    type Op;

    type Reply;

    /// What no call changes. Only contracts speak of it: no value of it is made.
    type Setting;

    /// What may be handed in with an operation to make it quicker. It is no part of the entry.
    type Hint;

    /// What the machine can be asked, with no operation and no entry.
    type Ask;

    /// What it then answers.
    type View;

    /// The history: what was recorded, in order.
    ghost entries: { Self → List (Entry Self.Op Self.Reply) };

    ghost setting: { Self → Self.Setting };

    /// The histories that a machine of this setting can make.
    ghost can_make: { Self.Setting → List (Entry Self.Op Self.Reply) → Type 0 };

    /// The replies whose operations are recorded.
    ghost is_recorded: { Self.Reply → Bool };

    /// At which histories a reply that is not recorded is given to an operation.
    ghost gives: { Self.Setting → List (Entry Self.Op Self.Reply) → Self.Op → Self.Reply → Type 0 };

    /// What a hint tells of a history.
    ghost hints: { Self.Setting → List (Entry Self.Op Self.Reply) → Self.Hint → Type 0 };

    /// What the answer to a question tells of a history.
    ghost tells: { Self.Setting → List (Entry Self.Op Self.Reply) → Self.Ask → Self.View → Type 0 };

    /// Whether an operation with this reply is recorded.
    fn recorded(reply: &Self::Reply) -> bool
        ensures recorded { result ≡ is_recorded reply.now };

    /// The number of entries. Each machine's history is one that a machine of its setting can make.
    fn length(&self) -> u64
        ensures length { result ≡ length (entries self.now) }
        ensures made { can_make (setting self.now) (entries self.now) };

    /// Does one operation. A recorded reply adds exactly its entry, at the end of the history; a reply that is not recorded, and
    /// running out of memory, change nothing that a contract sees. A hint has to tell of a prefix of the history.
    fn apply(
        &mut self,
        tag: Tag,
        op: Self::Op,
        hint: Option<Self::Hint>,
    ) -> Result<Self::Reply, AllocError>
        requires hint { IfSome hint (TellsOfPrefix (hints (setting self.old)) (entries self.old)) }
        ensures setting { setting self.new ≡ setting self.old }
        ensures applied { IsApplied is_recorded (gives (setting self.old)) (entries self.old) (entries self.new) tag op result };

    /// Answers a question, and records nothing. It may wait.
    fn view<R: Wait>(&mut self, rt: &R, ask: Self::Ask) -> Result<Self::View, AllocError>
        ensures setting { setting self.new ≡ setting self.old }
        ensures entries { entries self.new ≡ entries self.old }
        ensures told { IfOk result (tells (setting self.old) (entries self.old) ask) };
}
