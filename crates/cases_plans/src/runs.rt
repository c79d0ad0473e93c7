//! Commands and drains as a runner runs them, by a caller that is answered as a case says, and counts the sections that begin.

ghost use Rattle.std.specs.Prelude.{◌≡◌, ⊤};
ghost use Rattle.std.specs.Bool.{OnTrue};
ghost use Rattle.osgi_runner.specs.Calls.{says_full, says_spent};
ghost use Rattle.cases_plans.specs.declared.runs.TheConstants.{MAX_CALLS};

use crate::commands::command_of;
use crate::replies::reply_of;
use crate::scripts::scripts;
use crate::shown::add_op;
use cases_text::{put, put_shown, split_at};
use osgi_base::Tag;
use osgi_ops::{Entry, Op, Refusal, Reply};
use osgi_runner::{Caller, Ended, drain_line, run_line};
use osgi_session::{Content, Line};
use std::alloc::{AllocError, Global};

/// The most calls of a case.
const MAX_CALLS: usize = 1_000;

/// A caller that is answered by these replies, the last one first, and then finds no memory.
#[derive(Drop)]
struct Answered {
    alloc: Global,
    replies: Vec<Reply>,
    entries: Vec<Entry>,
    is_full: bool,
    sections: u32,
}

/// Whether a reply says that the history is full.
fn says_full(reply: &Reply) -> bool
    ensures full { result ≡ says_full reply.now }
{
    matches!(
        reply,
        Reply::Refused {
            refusal: Refusal::HistoryFull
        }
    )
}

/// Whether a reply says that enough was handed.
fn says_spent(reply: &Reply) -> bool
    ensures spent { result ≡ says_spent reply.now }
{
    matches!(
        reply,
        Reply::Refused {
            refusal: Refusal::HandingsSpent
        }
    )
}

/// Whether an operation may be refused since enough was handed.
fn is_hand(op: &Op) -> bool
    ensures hand { OnTrue result (op.now ≡ Op.Hand) }
{
    matches!(op, Op::Hand)
}

impl Caller for Answered {
    ghost made = { λ caller. caller.entries.items };

    ghost limit = { λ _. MAX_CALLS };

    ghost full = { λ caller. caller.is_full };

    ghost number = { λ _. 0 };

    // It is lent nothing.
    ghost goes_on = { λ _ _. ⊤ };

    ghost stays = { λ _. tt };

    ghost goes_further = { λ _ _ _ _ _. tt };

    fn call(&mut self, command: u32, op: Op) -> Result<Reply, AllocError> {
        let Some(reply) = self.replies.pop() else {
            return Err(AllocError);
        };
        if says_full(&reply) {
            self.is_full = true;
            return Ok(reply);
        }
        if self.entries.len() >= MAX_CALLS || says_spent(&reply) && !is_hand(&op) {
            return Err(AllocError);
        }
        let kept = reply.copy(self.alloc)?;
        let tag = Tag { caller: 0, command };
        self.entries.push(Entry {
            tag,
            op,
            reply: kept,
        })?;
        Ok(reply)
    }

    fn section(&mut self) {
        self.sections = self.sections.saturating_add(1);
    }
}

/// The replies that a case writes, the last one first, up to one that is none.
fn replies(alloc: Global, written: &str) -> Result<Vec<Reply>, AllocError> {
    let mut replies = Vec::new(alloc);
    for word in written.rsplit(" | ") {
        if let Some(reply) = reply_of(alloc, word)? {
            replies.push(reply)?;
        }
    }
    Ok(replies)
}

/// Adds the operations that were called, and how many sections began.
fn add_calls(out: &mut String, caller: &Answered) -> Result<(), AllocError> {
    for entry in &caller.entries {
        add_op(out, &entry.op)?;
        put(out, "; ")?;
    }
    put_shown(out, &caller.sections)?;
    put(out, " sections")
}

/// A caller that is answered by the replies that a case writes.
fn caller_of(alloc: Global, written: &str) -> Result<Answered, AllocError> {
    Ok(Answered {
        alloc,
        replies: replies(alloc, written)?,
        entries: Vec::new(alloc),
        is_full: false,
        sections: 0,
    })
}

/// Adds what was called, and how it ended.
fn add_ended(
    out: &mut String,
    caller: &Answered,
    ended: Result<Ended, AllocError>,
) -> Result<(), AllocError> {
    add_calls(out, caller)?;
    match ended {
        Ok(Ended::Done) => put(out, "; done"),
        Ok(Ended::Cut) => put(out, "; cut"),
        Err(AllocError) => put(out, "; no more replies"),
    }
}

/// Adds what a run of a command comes to, by the replies that are said.
pub fn add_run(alloc: Global, out: &mut String, case: &str) -> Result<(), AllocError> {
    let (said, written) = split_at(case, " | ");
    let Some(command) = command_of(alloc, said)? else {
        return put(out, "no such command");
    };
    let line = Line {
        number: 7,
        lane: 0,
        content: Content::Run(command),
    };
    let scripts = scripts(alloc)?;
    let mut caller = caller_of(alloc, written)?;
    let ended = run_line(alloc, &mut caller, &scripts, &line);
    add_ended(out, &caller, ended)
}

/// Adds what a drain comes to, by the replies that are said.
pub fn add_drain(alloc: Global, out: &mut String, written: &str) -> Result<(), AllocError> {
    let line = Line {
        number: 7,
        lane: 0,
        content: Content::Empty,
    };
    let scripts = scripts(alloc)?;
    let mut caller = caller_of(alloc, written)?;
    let ended = drain_line(alloc, &mut caller, &scripts, &line);
    add_ended(out, &caller, ended)
}
