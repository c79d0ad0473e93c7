//! What rows ask of the machine.

use crate::depot::{depot_of, numbered_depot};
use crate::direct::direct;
use crate::filling::filled_named;
use crate::hands::{add_due, add_handed};
use crate::later::{later, later_with_text};
use crate::machine::{add_filled, add_history, add_recorded};
use crate::names::{add_join, add_limits, add_many};
use crate::refusals::{Form, add_refusal};
use cases_operations::asked::asked;
use cases_operations::{number, split_bundle};
use cases_text::{put, split_word};
use osgi_base::{BundleId, ListenerId, Tag};
use osgi_core::Core;
use osgi_ops::{Depot, Limits, Op};
use std::alloc::{AllocError, Global};
use std::mem;

/// Limits with room for so many entries, and for so many events that are handed; a million of each at most.
fn limited(entries: u32, handings: u32) -> Limits {
    Limits {
        budget: 0,
        handings: u64::from(handings).min(1_000_000),
        entries: u64::from(entries).min(1_000_000),
    }
}

/// A new machine with these limits, and this depot.
fn begin(
    alloc: Global,
    out: &mut String,
    core: &mut Core,
    limits: Limits,
    depot: Depot,
) -> Result<(), AllocError> {
    let next = Core::new(alloc, limits, depot)?;
    let _ = mem::replace(core, next).into_parts();
    put(out, "begun")
}

/// The tag that a word writes, as `CALLER.NUMBER`.
fn tag_of(word: &str) -> Option<Tag> {
    let (caller, command) = word.split_once('.')?;
    Some(Tag {
        caller: number(caller),
        command: number(command),
    })
}

/// Why a name is of no operation.
const NO_OPERATION: &str = "no such operation";

/// The operation that a row asks for, by a command of the console or by its name; or why it asks for none.
fn op_of(
    alloc: Global,
    bundle: BundleId,
    text: &str,
) -> Result<Result<Op, &'static str>, AllocError> {
    let (word, name) = split_word(text);
    if word == "direct" {
        Ok(direct(alloc, name, bundle)?.ok_or(NO_OPERATION))
    } else if word == "later" {
        Ok(later(name, bundle).ok_or(NO_OPERATION))
    } else if word == "later_with_text" {
        Ok(later_with_text(alloc, name, bundle)?.ok_or(NO_OPERATION))
    } else {
        asked(alloc, bundle, text)
    }
}

/// Asks for the operation that a row says after its tag, or for as many listeners or jobs as it says.
fn ask_tagged(
    alloc: Global,
    out: &mut String,
    core: &mut Core,
    tag: Tag,
    text: &str,
) -> Result<(), AllocError> {
    let (bundle, command) = split_bundle(text);
    let (word, count) = split_word(command);
    if let Some(filled) = filled_named(word) {
        return add_filled(alloc, out, core, tag, bundle, filled, number(count));
    }
    match op_of(alloc, bundle, command)? {
        Ok(op) => add_recorded(alloc, out, core, tag, op),
        Err(why) => put(out, why),
    }
}

/// Asks for the operation of a row that begins with a tag.
fn ask(
    alloc: Global,
    out: &mut String,
    core: &mut Core,
    word: &str,
    text: &str,
) -> Result<(), AllocError> {
    match tag_of(word) {
        Some(tag) => ask_tagged(alloc, out, core, tag, text),
        None => put(out, "no such row"),
    }
}

/// Adds the answer to a row.
pub fn add_answer(
    alloc: Global,
    out: &mut String,
    core: &mut Core,
    row: &str,
) -> Result<(), AllocError> {
    let (word, rest) = split_word(row);
    if word == "core" {
        let (entries, location) = split_word(rest);
        begin(
            alloc,
            out,
            core,
            limited(number(entries), u32::MAX),
            depot_of(alloc, location)?,
        )
    } else if word == "core_of" {
        let (entries, rest) = split_word(rest);
        let (count, handings) = split_word(rest);
        begin(
            alloc,
            out,
            core,
            limited(number(entries), number(handings)),
            numbered_depot(alloc, number(count))?,
        )
    } else if word == "entries" {
        add_history(alloc, out, core.entries())
    } else if word == "handed" {
        add_handed(alloc, out, core, ListenerId(number(rest)))
    } else if word == "due" {
        add_due(alloc, out, core, ListenerId(number(rest)))
    } else if word == "refusal" {
        add_refusal(alloc, out, rest, Form::Name)
    } else if word == "line" {
        add_refusal(alloc, out, rest, Form::Line)
    } else if word == "many" {
        add_many(out, rest)
    } else if word == "join" {
        add_join(alloc, out)
    } else if word == "limits" {
        add_limits(out)
    } else {
        ask(alloc, out, core, word, rest)
    }
}
