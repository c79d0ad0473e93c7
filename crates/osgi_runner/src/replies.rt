//! Where a runner goes on after a reply.

ghost use Rattle.std.specs.Prelude.{◌≡◌, ◌<◌, ◌∷◌, false, List, reverse, vec_capacity, vec_len};
ghost use Rattle.osgi_ops.specs.declared.op.Op.{Op};
ghost use Rattle.osgi_runner.specs.Calls.{says_cut, says_spent};
ghost use Rattle.osgi_runner.specs.computed.Stacks.{AllFit, CanStep, IsAsked};
ghost use Rattle.osgi_runner.specs.computed.States.{After, frames_of, handed_to, is_job, Waited};
ghost use Rattle.osgi_ops.specs.declared.op.Op.TheVariants as op;
ghost use Rattle.osgi_runner.specs.declared.frames.Frame.{Frame};
ghost use Rattle.osgi_runner.specs.declared.frames.Wait.TheVariants as wait;
ghost use Rattle.osgi_session.specs.Runs.{Call, call, Sections};

use crate::frames::{DONE, Frame, Now, Opening, Step, Wait};
use crate::steps::follow;
use osgi_base::ListenerId;
use osgi_lifecycle::Last;
use osgi_ops::{Op, Refusal, Reply};

/// Whether a command is cut at this reply: the history is full, or enough was handed.
pub fn is_cut(reply: &Reply) -> bool
    ensures cut { result ≡ says_cut reply.now }
{
    matches!(
        reply,
        Reply::Refused {
            refusal: Refusal::HistoryFull | Refusal::HandingsSpent,
        }
    )
}

/// The listener that an event is handed to, if one is.
fn handed_to(reply: &Reply) -> Option<ListenerId>
    ensures listener { result ≡ handed_to reply.now }
{
    match reply {
        Reply::Handed { listener, .. } => Some(*listener),
        _ => None,
    }
}

/// Whether a job was taken.
fn is_job(reply: &Reply) -> bool
    ensures job { result ≡ is_job reply.now }
{
    matches!(reply, Reply::Job { .. })
}

/// Where a drain goes on after a Hand.
fn handed<'s>(stack: &mut Vec<Frame<'s>>, reply: Reply) -> Step<'s>
    requires room { vec_len stack.old < vec_capacity stack.old }
    requires fit { AllFit (reverse stack.old.items) }
    ensures fit { AllFit (reverse stack.new.items) }
    ensures can { CanStep result (reverse stack.new.items) }
    ensures on { (script : Sections) (calls : List Call)
        → After script result (frames_of stack.new.items) calls
        → says_spent reply ≡ false
        → Waited script op.Hand wait.Drain (frames_of stack.old.items)
        (call op.Hand reply ∷ calls) }
{
    let Some(listener) = handed_to(&reply) else {
        return Step::Go(Now::Back(DONE));
    };
    stack.push_reserved(Frame::Hand(listener));
    Step::Go(Now::Open(Opening::ByReply(reply)))
}

/// Where the jobs go on after one was taken.
fn taken<'s>(stack: &mut Vec<Frame<'s>>, reply: Reply) -> Step<'s>
    requires room { vec_len stack.old < vec_capacity stack.old }
    requires fit { AllFit (reverse stack.old.items) }
    ensures fit { AllFit (reverse stack.new.items) }
    ensures can { CanStep result (reverse stack.new.items) }
    ensures on { (script : Sections) (calls : List Call)
        → After script result (frames_of stack.new.items) calls
        → Waited script op.TakeJob wait.Jobs (frames_of stack.old.items)
        (call op.TakeJob reply ∷ calls) }
{
    if !is_job(&reply) {
        return Step::Go(Now::Back(DONE));
    }
    stack.push_reserved(Frame::Job);
    Step::Go(Now::Open(Opening::ByReply(reply)))
}

impl Wait {
    /// Where it goes on after the reply. It takes no memory.
    pub fn answered<'s>(self, stack: &mut Vec<Frame<'s>>, reply: Reply) -> Step<'s>
        requires room { vec_len stack.old < vec_capacity stack.old }
        requires fit { AllFit (reverse stack.old.items) }
        requires asked { (asks : Op) × IsAsked asks self (reverse stack.old.items) }
        ensures fit { AllFit (reverse stack.new.items) }
        ensures can { CanStep result (reverse stack.new.items) }
        ensures on { (script : Sections) (asks : Op) (calls : List Call)
            → IsAsked asks self (reverse stack.old.items)
            → After script result (frames_of stack.new.items) calls
            → says_spent reply ≡ false
            → Waited script asks self (frames_of stack.old.items) (call asks reply ∷ calls) }
    {
        match self {
            Wait::Plan(plan) => follow(stack, plan, Last::Reply { reply }),
            Wait::Drain => handed(stack, reply),
            Wait::Hand(_) => Step::Ask(Op::Hand, Wait::Drain),
            Wait::Jobs => taken(stack, reply),
            Wait::Job => Step::Ask(Op::TakeJob, Wait::Jobs),
        }
    }
}
