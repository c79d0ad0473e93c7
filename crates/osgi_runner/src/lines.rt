//! A line as one caller runs it: its command, step by step, and then the jobs; or one drain.

ghost use Rattle.std.specs.Prelude.{◌≡◌, [], List, false, true, reverse, IfOk, OnErr};
ghost use Rattle.osgi_runner.specs.Calls.{Adds, IsCutDrainOf, IsCutShort, IsDrainCutShort, IsDrainOf};
ghost use Rattle.osgi_runner.specs.computed.Ends.{Ends, Made};
ghost use Rattle.osgi_runner.specs.computed.Stacks.{AllFit, CanStep};
ghost use Rattle.osgi_runner.specs.computed.States.{After, frames_of};
ghost use Rattle.osgi_runner.specs.declared.lines.Ended.TheVariants as ended;
ghost use Rattle.osgi_session.specs.Lines.{has_command};
ghost use Rattle.osgi_session.specs.Runs.{Call, Follows, IsCutOf, Sections};
ghost use Rattle.osgi_session.specs.Scripts.{sections_of};
ghost use Rattle.osgi_session.specs.Sessions.{IsCutRunOf, IsRunOf};

use crate::caller::Caller;
use crate::frames::{Frame, Step, Wait};
use crate::replies::is_cut;
use crate::steps::follow;
use osgi_base::BundleId;
use osgi_lifecycle::{Last, Plan};
use osgi_ops::Op;
use osgi_session::{Command, Content, Line, Scripts};
use std::alloc::{AllocError, Global};

/// The system bundle, which runs the console's commands.
const SYSTEM: BundleId = BundleId(0);

/// How a command or a drain ended.
#[derive(Clone, Copy, PartialEq, Eq)]
pub enum Ended {
    /// It ran whole; after a command no job is queued.
    Done,
    /// The history was full, or enough was handed.
    Cut,
}

/// Goes on from this step to the end.
fn finish<'s, C: Caller>(
    alloc: Global,
    caller: &mut C,
    scripts: &'s Scripts,
    number: u32,
    stack: &mut Vec<Frame<'s>>,
    step: Step<'s>,
) -> Result<Ended, AllocError>
    requires fit { AllFit (reverse stack.old.items) }
    requires can { CanStep step (reverse stack.old.items) }
    ensures number { C.number caller.new ≡ C.number caller.old }
    ensures limit { C.limit caller.new ≡ C.limit caller.old }
    ensures goes { C.goes_on caller.old caller.new }
    ensures ended { IfOk result (λ how.
        Ends (λ calls. After (sections_of scripts.now) step.entry (frames_of stack.old.items) calls)
        how (record { caller = C.number caller.old; command = number }) (C.full caller.new)
        (C.made caller.old) (C.made caller.new)) }
    ensures wanting { OnErr result
        (Made
        (IsCutOf
        (λ calls.
        After (sections_of scripts.now) step.entry (frames_of stack.old.items) calls))
        (record { caller = C.number caller.old; command = number }) (C.made caller.old)
        (C.made caller.new)) }
{
    let mut step = step;
    loop {
        let Some((op, wait)) = step.advance(alloc, caller, scripts, stack)? else {
            return Ok(Ended::Done);
        };
        stack.reserve(1)?;
        let reply = caller.call(number, op)?;
        if is_cut(&reply) {
            return Ok(Ended::Cut);
        }
        step = wait.answered(stack, reply);
    }
}

/// The stack and the first step of a command of the console: its plan, and then the jobs.
fn first<'s>(
    alloc: Global,
    stack: &mut Vec<Frame<'s>>,
    command: &Command,
) -> Result<Step<'s>, AllocError>
    requires empty { stack.old.items ≡ [] }
    ensures fit { IfOk result (λ step. AllFit (reverse stack.new.items)) }
    ensures can { IfOk result (λ step. CanStep step (reverse stack.new.items)) }
    ensures follows { IfOk result (λ step.
        (script : Sections) (calls : List Call)
        → After script step (frames_of stack.new.items) calls
        → Follows script command.now calls) }
{
    let command = command.copy(alloc)?;
    let plan = Plan::of(alloc, command, SYSTEM)?;
    stack.reserve(2)?;
    stack.push_reserved(Frame::Jobs);
    Ok(follow(stack, plan, Last::Begin))
}

/// Runs a command of the console, and then the jobs.
fn run<C: Caller>(
    alloc: Global,
    caller: &mut C,
    scripts: &Scripts,
    number: u32,
    command: &Command,
) -> Result<Ended, AllocError>
    ensures number { C.number caller.new ≡ C.number caller.old }
    ensures limit { C.limit caller.new ≡ C.limit caller.old }
    ensures goes { C.goes_on caller.old caller.new }
    ensures ended { IfOk result (λ how.
        Ends (Follows (sections_of scripts.now) command.now) how
        (record { caller = C.number caller.old; command = number }) (C.full caller.new)
        (C.made caller.old) (C.made caller.new)) }
    ensures wanting { OnErr result
        (Made (IsCutOf (Follows (sections_of scripts.now) command.now))
        (record { caller = C.number caller.old; command = number }) (C.made caller.old)
        (C.made caller.new)) }
{
    let mut stack = Vec::new(alloc);
    let step = first(alloc, &mut stack, command)?;
    finish(alloc, caller, scripts, number, &mut stack, step)
}

/// A caller runs the command of a line, step by step, and then the jobs until none is queued; the sections are those of these
/// scripts. The line has a command.
///
/// Where it answers Done, the entries that were added are a whole run of the command. Where it answers Cut, they are the
/// beginning of one, and the history was seen to be full; or one that ends with a Hand refused since enough was handed. Where
/// memory ran out, they are the beginning of one.
pub fn run_line<C: Caller>(
    alloc: Global,
    caller: &mut C,
    scripts: &Scripts,
    line: &Line,
) -> Result<Ended, AllocError>
    requires command { has_command line.now.content ≡ true }
    ensures number { C.number caller.new ≡ C.number caller.old }
    ensures limit { C.limit caller.new ≡ C.limit caller.old }
    ensures goes { C.goes_on caller.old caller.new }
    ensures done { IfOk result (λ how.
        how ≡ ended.Done
        → Adds (IsRunOf (sections_of scripts.now) (C.number caller.old) line.now)
        (C.made caller.old) (C.made caller.new)) }
    ensures cut { IfOk result (λ how.
        how ≡ ended.Cut
        → IsCutShort (sections_of scripts.now) (C.number caller.old) line.now (C.full caller.new)
        (C.made caller.old) (C.made caller.new)) }
    ensures wanting { OnErr result
        (Adds (IsCutRunOf (sections_of scripts.now) (C.number caller.old) line.now false)
        (C.made caller.old) (C.made caller.new)) }
{
    let Content::Run(command) = &line.content else {
        unreachable!()
    };
    run(alloc, caller, scripts, line.number, command)
}

/// A caller makes one drain for a line, with or without a command: hands one event after another, and runs the section of each,
/// until no event can be handed now, or the Hand is refused.
///
/// Where it answers Done, the entries that were added are a whole drain. Where it answers Cut, they are the beginning of one, and
/// the history was seen to be full; or one that ends with a Hand refused since enough was handed. Where memory ran out, they are
/// the beginning of one.
pub fn drain_line<C: Caller>(
    alloc: Global,
    caller: &mut C,
    scripts: &Scripts,
    line: &Line,
) -> Result<Ended, AllocError>
    ensures number { C.number caller.new ≡ C.number caller.old }
    ensures limit { C.limit caller.new ≡ C.limit caller.old }
    ensures goes { C.goes_on caller.old caller.new }
    ensures done { IfOk result (λ how.
        how ≡ ended.Done
        → Adds (IsDrainOf (sections_of scripts.now) (C.number caller.old) line.now)
        (C.made caller.old) (C.made caller.new)) }
    ensures cut { IfOk result (λ how.
        how ≡ ended.Cut
        → IsDrainCutShort (sections_of scripts.now) (C.number caller.old) line.now
        (C.full caller.new) (C.made caller.old) (C.made caller.new)) }
    ensures wanting { OnErr result
        (Adds (IsCutDrainOf (sections_of scripts.now) (C.number caller.old) line.now false)
        (C.made caller.old) (C.made caller.new)) }
{
    let mut stack = Vec::new(alloc);
    let step = Step::Ask(Op::Hand, Wait::Drain);
    finish(alloc, caller, scripts, line.number, &mut stack, step)
}
