//! Plans, asked step by step.

ghost use Rattle.std.specs.Prelude.{◌≡◌, IfOk};
ghost use Rattle.osgi_session.specs.Plans.{done, plan, stop};
ghost use Rattle.osgi_session.specs.Steps.{drained_first, first_step, fresh, resume};
ghost use Rattle.osgi_lifecycle.specs.Draining.{drained_by};
ghost use Rattle.osgi_lifecycle.specs.Following.{after_reply, left_of};
ghost use Rattle.osgi_lifecycle.specs.Pendings.{Awaits, IsAnswer, IsNext, last_of, pending_of};

use crate::at::At;
use crate::head::{End, Head};
use crate::kept::Kept;
use crate::last::Last;
use crate::next::Next;
use crate::opening::is_peek;
use crate::rest::Rest;
use crate::stirring::Stirring;
use osgi_base::{BundleId, Text};
use osgi_ops::Reply;
use osgi_session::Command;
use std::alloc::{AllocError, Global};
use std::mem;

/// What a plan's last step was.
#[derive(Clone, Copy)]
pub enum Stage {
    /// None yet.
    Fresh,
    /// An operation.
    Asked,
    /// Events were to be handed.
    Draining,
    /// A section was to be run.
    Within,
    /// The end.
    Ended,
}

/// What is left to do of a command that a bundle runs: operations, sections of scripts that are run between them, and the handing
/// of events. It does none of them: it is asked for its steps one by one, and told how each came out.
pub struct Plan {
    stage: Stage,
    /// Of the last operation.
    stirring: Stirring,
    /// The step that comes first, or after the events.
    ready: Head,
    rest: Rest,
}

/// Not derived, so that each exit at which one is dropped is a single call, which is cheap to prove.
impl Drop for Plan {
    fn drop(self) {
        let Plan {
            stage: _,
            stirring: _,
            ready: _,
            rest: _,
        } = self;
    }
}

impl Plan {
    /// The plan of the command, where the owner runs it: bundle 0, which is the console, or the bundle of the script in which it
    /// stands. The texts and lists of the command go into its operations, without a copy.
    pub fn of(alloc: Global, command: Command, owner: BundleId) -> Result<Plan, AllocError>
        ensures fresh { IfOk result (λ made. pending_of made ≡ fresh (plan owner command)) }
    {
        if is_peek(&command) {
            return Ok(Plan::at_end(alloc));
        }
        let at = At::first(&command, owner);
        let (op, later) = command.into_op(owner);
        let text = match later {
            Some(text) => text,
            None => Text::empty(),
        };
        let kept = Kept {
            text,
            bundles: Vec::new(alloc),
            place: 0,
        };
        Ok(Plan {
            stage: Stage::Fresh,
            stirring: Stirring::Never,
            ready: Head::Ask { op },
            rest: Rest { at, kept },
        })
    }

    /// A plan that asks for nothing.
    fn at_end(alloc: Global) -> Plan
        ensures fresh { pending_of result ≡ fresh (stop done) }
    {
        let kept = Kept {
            text: Text::empty(),
            bundles: Vec::new(alloc),
            place: 0,
        };
        Plan {
            stage: Stage::Fresh,
            stirring: Stirring::Never,
            ready: Head::Stop { end: End::Done },
            rest: Rest { at: At::Only, kept },
        }
    }

    /// The next step, after the one before came out so: `Begin` stands for none, `Reply` answers an operation, `Drained` the
    /// handing of events, `Ran` a section, and after the end there is no step. Whatever is answered, the steps are those of the
    /// command's plan. It takes no memory.
    pub fn next(&mut self, last: Last) -> Next
        requires answers { IsAnswer (pending_of self.old) (last_of last) }
        ensures next { IsNext result (resume (pending_of self.old) (last_of last)).next }
        ensures pending { pending_of self.new
            ≡ (resume (pending_of self.old) (last_of last)).pending }
        ensures awaits { Awaits result (pending_of self.new) }
    {
        match last {
            Last::Begin | Last::Drained => self.give_ready(),
            Last::Reply { reply } => self.after_reply(reply),
            Last::Ran { failed } => {
                let head = self.rest.after_section(failed);
                self.give(head)
            }
        }
    }

    /// The step that was held back.
    fn give_ready(&mut self) -> Next
        ensures next { IsNext result (first_step (left_of self.old.ready self.old.rest)).next }
        ensures pending { pending_of self.new
            ≡ (first_step (left_of self.old.ready self.old.rest)).pending }
    {
        let head = mem::replace(&mut self.ready, Head::Stop { end: End::Refused });
        self.give(head)
    }

    /// The step after a reply, or the events before it.
    fn after_reply(&mut self, reply: Reply) -> Next
        ensures next { IsNext result
            (drained_first (drained_by self.old.stirring reply) (after_reply self.old.rest.at self.old.rest.kept reply)).next }
        ensures pending { pending_of self.new
            ≡
            (drained_first (drained_by self.old.stirring reply) (after_reply self.old.rest.at self.old.rest.kept reply)).pending }
    {
        let drains = self.stirring.is_drained(&reply);
        let head = self.rest.after_reply(reply);
        if !drains {
            return self.give(head);
        }
        self.stage = Stage::Draining;
        self.ready = head;
        Next::Drain
    }

    /// The step, and what is awaited then.
    fn give(&mut self, head: Head) -> Next
        ensures next { IsNext result (first_step (left_of head self.old.rest)).next }
        ensures pending { pending_of self.new ≡ (first_step (left_of head self.old.rest)).pending }
    {
        match &head {
            Head::Ask { op } => {
                self.stage = Stage::Asked;
                self.stirring = Stirring::of(op);
            }
            Head::Run { .. } => self.stage = Stage::Within,
            Head::Stop { .. } => self.stage = Stage::Ended,
        }
        head.into_next()
    }
}
