//! Plans, asked step by step.

ghost use Rattle.std.specs.Prelude.{IfOk, IfSome};
ghost use Rattle.osgi_lifecycle.specs.Pendings.{Awaits, pending_of};

use crate::commands::command_of;
use crate::replies::reply_of;
use crate::shown::add_step;
use crate::words::number;
use cases_text::{put, split_at, split_word};
use osgi_base::BundleId;
use osgi_lifecycle::{Last, Next, Plan};
use std::alloc::{AllocError, Global};

/// The step after an answer, where it is one to the step before.
fn go_on(
    alloc: Global,
    plan: &mut Plan,
    step: &Next,
    answer: &str,
) -> Result<Option<Next>, AllocError>
    requires awaits { Awaits step.now (pending_of plan.old) }
    ensures awaits { IfOk result (λ found. IfSome found (λ next. Awaits next (pending_of plan.new))) }
{
    match step {
        Next::Do { .. } => match reply_of(alloc, answer)? {
            Some(reply) => Ok(Some(plan.next(Last::Reply { reply }))),
            None => Ok(None),
        },
        Next::Drain => {
            if answer != "drained" {
                return Ok(None);
            }
            Ok(Some(plan.next(Last::Drained)))
        }
        Next::Run { .. } => Ok(Some(plan.next(Last::Ran {
            failed: answer == "failed",
        }))),
        Next::End { .. } => Ok(None),
    }
}

/// Adds the steps of a plan after its first.
fn add_steps(
    alloc: Global,
    out: &mut String,
    plan: &mut Plan,
    first: Next,
    answers: &str,
) -> Result<(), AllocError>
    requires awaits { Awaits first (pending_of plan.old) }
{
    let mut step = first;
    for answer in answers.split(" | ") {
        put(out, "; ")?;
        match go_on(alloc, plan, &step, answer)? {
            Some(next) => step = next,
            None => return put(out, "no such answer"),
        }
        add_step(out, &step)?;
    }
    Ok(())
}

/// Adds the steps of a plan, whose owner and command are said, with the answers to them.
pub fn add_walk(alloc: Global, out: &mut String, case: &str) -> Result<(), AllocError> {
    let (said, answers) = split_at(case, " | ");
    let (owner, command) = split_word(said);
    let Some(command) = command_of(alloc, command)? else {
        return put(out, "no such command");
    };
    let mut plan = Plan::of(alloc, command, BundleId(number(owner)))?;
    let first = plan.next(Last::Begin);
    add_step(out, &first)?;
    if answers.is_empty() {
        return Ok(());
    }
    add_steps(alloc, out, &mut plan, first, answers)
}
