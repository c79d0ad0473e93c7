//! Single steps of a runner.

ghost use Rattle.std.specs.Prelude.{◌≡◌, ◌+◌, ◌<◌, ◌∷◌, List, IfOk, OnErr, reverse, vec_capacity, vec_len};
ghost use Rattle.osgi_lifecycle.specs.Pendings.{IsAnswer, IsEnd, last_of, pending_of};
ghost use Rattle.osgi_ops.specs.declared.op.Op.{Op};
ghost use Rattle.osgi_runs.specs.Courses.{to_section};
ghost use Rattle.osgi_runs.specs.Courses as course;
ghost use Rattle.osgi_runner.specs.computed.Stacks.{AllFit, CanGo, CanStep, Fits, HasSome, IsAskedIn};
ghost use Rattle.osgi_runner.specs.computed.States.{After, bindings_of, Comes, end_of, EndsAs, frame_of, frames_of, IsUnfinished, Reaches, Rest};
ghost use Rattle.osgi_runner.specs.computed.Weights.{frame_weight, IsLighter, now_weight, stack_weight, step_weight};
ghost use Rattle.osgi_runner.specs.declared.frames.Frame.{Frame};
ghost use Rattle.osgi_runner.specs.declared.frames.Now.TheVariants as now;
ghost use Rattle.osgi_session.specs.Plans.{End};
ghost use Rattle.osgi_session.specs.Runs.{Call, Sections};
ghost use Rattle.osgi_session.specs.Scripts.{sections_of};
ghost use Rattle.osgi_session.specs.Steps.{resume};
ghost use Rattle.osgi_runs.specs.Courses.{Left};

use crate::caller::Caller;
use crate::frames::{DONE, FAILED, Frame, Now, Opening, Outcome, Running, Step, Wait};
use crate::statements::{bind, command_of};
use osgi_base::ServiceId;
use osgi_lifecycle::{Last, Next, Plan};
use osgi_ops::Op;
use osgi_session::{Scripts, Statement};
use std::alloc::{AllocError, Global};

/// How a plan ended.
fn ended(refused: bool, failed: bool, bound: Option<ServiceId>) -> Outcome
    ensures ends { (end : End) → IsEnd end refused failed bound → EndsAs (end_of result) end }
{
    Outcome {
        failed: refused || failed,
        bound,
    }
}

/// Asks a plan for its next step.
pub fn follow<'s>(stack: &mut Vec<Frame<'s>>, plan: Plan, last: Last) -> Step<'s>
    requires room { vec_len stack.old < vec_capacity stack.old }
    requires answers { IsAnswer (pending_of plan) (last_of last) }
    requires fit { AllFit (reverse stack.old.items) }
    requires some { HasSome (reverse stack.old.items) }
    ensures fit { AllFit (reverse stack.new.items) }
    ensures can { CanStep result (reverse stack.new.items) }
    ensures lighter { IsLighter result stack.new.items
        (step_weight (resume (pending_of plan) (last_of last)) + stack_weight stack.old.items) }
    ensures on { (script : Sections) (calls : List Call)
        → After script result (frames_of stack.new.items) calls
        → Comes script (resume (pending_of plan) (last_of last)) (frames_of stack.old.items) calls }
{
    let mut plan = plan;
    match plan.next(last) {
        Next::Do { op } => Step::Ask(op, Wait::Plan(plan)),
        Next::Drain => {
            stack.push_reserved(Frame::Drained(plan));
            Step::Ask(Op::Hand, Wait::Drain)
        }
        Next::Run {
            row,
            owner,
            section,
        } => {
            stack.push_reserved(Frame::Ran(plan));
            Step::Go(Now::Open(Opening::ByPlan {
                row,
                owner,
                section,
            }))
        }
        Next::End {
            refused,
            failed,
            bound,
        } => Step::Go(Now::Back(ended(refused, failed, bound))),
    }
}

impl<'s> Running<'s> {
    /// Where a section goes on whose statement ended so: it fails with it, or runs the statements after it, with what it bound.
    fn passed(
        self,
        alloc: Global,
        statement: &Statement,
        outcome: Outcome,
    ) -> Result<Step<'s>, AllocError>
        ensures can { IfOk result (λ step.
            (outer : List Frame) → HasSome outer → CanStep step outer) }
        ensures lighter { IfOk result (λ step.
            (stack : List Frame) → IsLighter step stack (3 + stack_weight stack)) }
        ensures on { IfOk result (λ step.
            (script : Sections) (outer : List course.Frame) (calls : List Call)
            → After script step outer calls
            → Left script
            (to_section self.entry.owner (bindings_of self.entry.bindings.items) statement.now
            self.entry.left.now ∷ outer) (end_of outcome) calls) }
    {
        if outcome.failed {
            return Ok(Step::Go(Now::Back(FAILED)));
        }
        let mut running = self;
        bind(alloc, &mut running.bindings, statement, outcome.bound)?;
        Ok(Step::Go(Now::Run(running)))
    }
}

impl<'s> Frame<'s> {
    /// Where it goes on with this frame, taken from the stack, after what ran ended.
    fn back(
        self,
        alloc: Global,
        stack: &mut Vec<Frame<'s>>,
        outcome: Outcome,
    ) -> Result<Step<'s>, AllocError>
        requires room { vec_len stack.old < vec_capacity stack.old }
        requires fits { Fits self (reverse stack.old.items) }
        requires fit { AllFit (reverse stack.old.items) }
        ensures fit { IfOk result (λ step. AllFit (reverse stack.new.items)) }
        ensures can { IfOk result (λ step. CanStep step (reverse stack.new.items)) }
        ensures lighter { IfOk result (λ step.
            IsLighter step stack.new.items
            (1 + frame_weight self.entry + stack_weight stack.old.items)) }
        ensures on { IfOk result (λ step.
            (script : Sections) (calls : List Call)
            → After script step (frames_of stack.new.items) calls
            → Left script (frame_of self.entry ∷ frames_of stack.old.items) (end_of outcome)
            calls) }
    {
        match self {
            Frame::Drained(plan) => Ok(follow(stack, plan, Last::Drained)),
            Frame::Ran(plan) => Ok(follow(
                stack,
                plan,
                Last::Ran {
                    failed: outcome.failed,
                },
            )),
            Frame::Statement(statement, running) => running.passed(alloc, statement, outcome),
            Frame::Hand(listener) => Ok(Step::Ask(Op::EndHand { listener }, Wait::Hand(listener))),
            Frame::Job => Ok(Step::Ask(Op::EndJob, Wait::Job)),
            Frame::Jobs => Ok(Step::Ask(Op::TakeJob, Wait::Jobs)),
        }
    }
}

/// Where it goes on after what ran ended.
fn back<'s>(
    alloc: Global,
    stack: &mut Vec<Frame<'s>>,
    outcome: Outcome,
) -> Result<Step<'s>, AllocError>
    requires fit { AllFit (reverse stack.old.items) }
    ensures fit { IfOk result (λ step. AllFit (reverse stack.new.items)) }
    ensures can { IfOk result (λ step. CanStep step (reverse stack.new.items)) }
    ensures lighter { IfOk result (λ step.
        IsLighter step stack.new.items (1 + stack_weight stack.old.items)) }
    ensures on { IfOk result (λ step.
        (script : Sections) (calls : List Call)
        → After script step (frames_of stack.new.items) calls
        → Left script (frames_of stack.old.items) (end_of outcome) calls) }
    ensures some { OnErr result (HasSome (reverse stack.old.items)) }
{
    match stack.pop() {
        None => Ok(Step::Over),
        Some(frame) => frame.back(alloc, stack, outcome),
    }
}

impl<'s> Running<'s> {
    /// Where it goes on in a section: with its next statement, if one is left.
    fn next(self, alloc: Global, stack: &mut Vec<Frame<'s>>) -> Result<Step<'s>, AllocError>
        requires fit { AllFit (reverse stack.old.items) }
        requires some { HasSome (reverse stack.old.items) }
        ensures fit { IfOk result (λ step. AllFit (reverse stack.new.items)) }
        ensures can { IfOk result (λ step. CanStep step (reverse stack.new.items)) }
        ensures lighter { IfOk result (λ step.
            IsLighter step stack.new.items (2 + stack_weight stack.old.items)) }
        ensures on { IfOk result (λ step.
            (script : Sections) (calls : List Call)
            → After script step (frames_of stack.new.items) calls
            → Rest script (now.Run self.entry) (frames_of stack.old.items) calls) }
    {
        let Some((statement, left)) = self.left.split_first() else {
            return Ok(Step::Go(Now::Back(DONE)));
        };
        let Running {
            owner,
            bindings,
            left: _,
        } = self;
        let command = command_of(alloc, owner, bindings.as_slice(), statement)?;
        let plan = Plan::of(alloc, command, owner)?;
        stack.reserve(2)?;
        stack.push_reserved(Frame::Statement(
            statement,
            Running {
                owner,
                bindings,
                left,
            },
        ));
        Ok(follow(stack, plan, Last::Begin))
    }
}

impl<'s> Now<'s> {
    /// Where it goes on between two operations.
    fn go_on<C: Caller>(
        self,
        alloc: Global,
        caller: &mut C,
        scripts: &'s Scripts,
        stack: &mut Vec<Frame<'s>>,
    ) -> Result<Step<'s>, AllocError>
        requires fit { AllFit (reverse stack.old.items) }
        requires can { CanGo self (reverse stack.old.items) }
        ensures number { C.number caller.new ≡ C.number caller.old }
        ensures limit { C.limit caller.new ≡ C.limit caller.old }
        ensures goes { C.goes_on caller.old caller.new }
        ensures made { C.made caller.new ≡ C.made caller.old }
        ensures fit { IfOk result (λ step. AllFit (reverse stack.new.items)) }
        ensures can { IfOk result (λ step. CanStep step (reverse stack.new.items)) }
        ensures lighter { IfOk result (λ step.
            IsLighter step stack.new.items (now_weight self.entry + stack_weight stack.old.items)) }
        ensures on { IfOk result (λ step.
            (calls : List Call)
            → After (sections_of scripts.now) step (frames_of stack.new.items) calls
            → Rest (sections_of scripts.now) self.entry (frames_of stack.old.items) calls) }
        ensures some { OnErr result (HasSome (reverse stack.old.items)) }
    {
        match self {
            Now::Open(opening) => {
                caller.section();
                Ok(Step::Go(Now::Run(opening.opened(alloc, scripts)?)))
            }
            Now::Run(running) => running.next(alloc, stack),
            Now::Back(outcome) => back(alloc, stack, outcome),
        }
    }
}

impl<'s> Step<'s> {
    /// Goes on up to an operation that is asked; None where nothing is left.
    pub fn advance<C: Caller>(
        self,
        alloc: Global,
        caller: &mut C,
        scripts: &'s Scripts,
        stack: &mut Vec<Frame<'s>>,
    ) -> Result<Option<(Op, Wait)>, AllocError>
        requires fit { AllFit (reverse stack.old.items) }
        requires can { CanStep self (reverse stack.old.items) }
        ensures number { C.number caller.new ≡ C.number caller.old }
        ensures limit { C.limit caller.new ≡ C.limit caller.old }
        ensures goes { C.goes_on caller.old caller.new }
        ensures made { C.made caller.new ≡ C.made caller.old }
        ensures fit { IfOk result (λ asked. AllFit (reverse stack.new.items)) }
        ensures asked { IfOk result (λ asked. IsAskedIn asked (reverse stack.new.items)) }
        ensures on { IfOk result (λ asked.
            Reaches (sections_of scripts.now) asked (frames_of stack.new.items) self.entry
            (frames_of stack.old.items)) }
        ensures unfinished { OnErr result
            (IsUnfinished (sections_of scripts.now) self.entry (frames_of stack.old.items)) }
    {
        let mut step = self;
        loop {
            match step {
                Step::Ask(op, wait) => return Ok(Some((op, wait))),
                Step::Over => return Ok(None),
                Step::Go(now) => step = now.go_on(alloc, caller, scripts, stack)?,
            }
        }
    }
}
