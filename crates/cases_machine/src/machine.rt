//! What the machine answers, and its history.

use crate::filling::{Filled, numbered};
use crate::hands::{add_nothing, add_section};
use cases_operations::{add_checked, are_shown_alike, entry_of};
use cases_text::{complain, put, put_shown};
use osgi_base::{BundleId, Tag};
use osgi_core::Core;
use osgi_ops::{Entry, Op, Reply};
use std::alloc::{AllocError, Global};

/// What the machine answers to an operation.
fn answered(alloc: Global, core: &mut Core, tag: Tag, op: &Op) -> Result<Reply, AllocError> {
    core.apply(tag, op.copy(alloc)?)
}

/// Applies an operation; the entry that it comes to.
fn applied(alloc: Global, core: &mut Core, tag: Tag, op: Op) -> Result<Entry, AllocError> {
    let reply = answered(alloc, core, tag, &op);
    entry_of(tag, Ok(op), reply)
}

/// Whether an entry is the last of a history.
fn is_last(alloc: Global, entries: &[Entry], entry: &Entry) -> Result<bool, AllocError> {
    match entries {
        [.., last] => are_shown_alike(alloc, last, entry),
        [] => Ok(false),
    }
}

/// Adds that a hand or a job has ended.
fn add_ended(out: &mut String, op: &Op) -> Result<(), AllocError> {
    match op {
        Op::EndHand { .. } | Op::EndJob => put(out, "done"),
        _ => Ok(()),
    }
}

/// Adds an answer that the console writes nothing of.
fn add_unwritten(out: &mut String, entry: &Entry) -> Result<(), AllocError> {
    match &entry.reply {
        Reply::NoJob => put(out, "no job"),
        Reply::Nothing { busy } => add_nothing(out, busy.items()),
        Reply::Done => add_ended(out, &entry.op),
        Reply::Go { bundle } => {
            put(out, "go ")?;
            put_shown(out, &bundle.0)
        }
        Reply::Loaded { by: None } => put(out, "loaded none"),
        Reply::Loaded { by: Some(revision) } => {
            put(out, "loaded r")?;
            put_shown(out, &revision.0)
        }
        _ => Ok(()),
    }
}

/// Adds what is to run, which the console does not write: the depot's row that has the script, and of a listener the section.
fn add_row(out: &mut String, reply: &Reply) -> Result<(), AllocError> {
    match reply {
        Reply::Begun { row, .. } | Reply::Job { row, .. } => {
            put(out, ", row ")?;
            put_shown(out, row)
        }
        Reply::Handed {
            kind,
            owner,
            row,
            name,
            ..
        } => add_section(out, name, *kind, *owner, *row),
        _ => Ok(()),
    }
}

/// Adds what the console writes of an entry, or else its answer.
fn add_answered(alloc: Global, out: &mut String, entry: &Entry) -> Result<(), AllocError> {
    let start = out.len();
    add_checked(alloc, out, entry)?;
    if out.len() > start {
        return add_row(out, &entry.reply);
    }
    add_unwritten(out, entry)
}

/// Adds an entry, and whether it is the last of the history.
fn add_compared(
    alloc: Global,
    out: &mut String,
    core: &Core,
    entry: &Entry,
) -> Result<(), AllocError> {
    add_answered(alloc, out, entry)?;
    let is_recorded = is_last(alloc, core.entries(), entry)?;
    complain(out, is_recorded, ", not recorded")
}

/// Adds what the machine answers to an operation, and whether it is the last of the history.
pub fn add_recorded(
    alloc: Global,
    out: &mut String,
    core: &mut Core,
    tag: Tag,
    op: Op,
) -> Result<(), AllocError> {
    let entry = applied(alloc, core, tag, op)?;
    add_compared(alloc, out, core, &entry)
}

/// Adds so many listeners or jobs of the bundle, named by the numbers from 0 on, and adds what the machine answers to the last.
pub fn add_filled(
    alloc: Global,
    out: &mut String,
    core: &mut Core,
    tag: Tag,
    owner: BundleId,
    filled: Filled,
    count: u32,
) -> Result<(), AllocError> {
    let mut answer = String::new(alloc);
    for number in 0..count {
        answer.clear();
        let op = numbered(alloc, filled, owner, number)?;
        add_recorded(alloc, &mut answer, core, tag, op)?;
    }
    put(out, answer.as_str())
}

/// The kind of an operation, and the bundle that asked for it where it names one.
fn kind(op: &Op) -> (&'static str, u32) {
    match op {
        Op::Register { owner, .. } => ("register", owner.0),
        Op::Modify { owner, .. } => ("modify", owner.0),
        Op::Unregister { owner, .. } => ("unregister", owner.0),
        Op::Find { asker, .. } => ("find", asker.0),
        Op::FindAll { asker, .. } => ("findall", asker.0),
        Op::Get { user, .. } => ("get", user.0),
        Op::Unget { user, .. } => ("unget", user.0),
        Op::AddListener { owner, .. } => ("addlistener", owner.0),
        Op::RemoveListener { owner, .. } => ("removelistener", owner.0),
        Op::Hand => ("hand", 0),
        Op::EndHand { .. } => ("endhand", 0),
        Op::Print { owner, .. } => ("print", owner.0),
        Op::Fail { owner, .. } => ("fail", owner.0),
        Op::Install { .. } => ("install", 0),
        Op::Resolve { .. } => ("resolve", 0),
        Op::WishStart { .. } => ("wishstart", 0),
        Op::BeginStart { .. } => ("beginstart", 0),
        Op::EndStart { .. } => ("endstart", 0),
        Op::BeginStop { .. } => ("beginstop", 0),
        Op::EndStop { .. } => ("endstop", 0),
        Op::QueueJob { owner, .. } => ("queuejob", owner.0),
        Op::TakeJob => ("takejob", 0),
        Op::EndJob => ("endjob", 0),
        Op::Load { .. } => ("load", 0),
        Op::ListBundles => ("bundles", 0),
        Op::ListServices => ("services", 0),
        Op::ListWires { .. } => ("wires", 0),
        _ => ("later", 0),
    }
}

/// Adds the tag of an entry.
fn add_tag(out: &mut String, tag: Tag) -> Result<(), AllocError> {
    put(out, " | ")?;
    put_shown(out, &tag.caller)?;
    put(out, ".")?;
    put_shown(out, &tag.command)
}

/// Adds the kind of an operation, after the bundle that asked for it.
fn add_kind(out: &mut String, op: &Op) -> Result<(), AllocError> {
    let (kind, bundle) = kind(op);
    put(out, " ")?;
    put_shown(out, &bundle)?;
    put(out, " ")?;
    put(out, kind)?;
    put(out, ": ")
}

fn add_entry(alloc: Global, out: &mut String, entry: &Entry) -> Result<(), AllocError> {
    add_tag(out, entry.tag)?;
    add_kind(out, &entry.op)?;
    add_answered(alloc, out, entry)
}

/// Adds the entries of a history.
pub fn add_history(alloc: Global, out: &mut String, entries: &[Entry]) -> Result<(), AllocError> {
    put_shown(out, &entries.len())?;
    for entry in entries {
        add_entry(alloc, out, entry)?;
    }
    Ok(())
}
