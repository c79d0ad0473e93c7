//! Rows: what is known at first, and steps.

use crate::asked::push_resolved;
use crate::called::{Call, push_called};
use crate::known::{add, add_all, first_wirings};
use crate::loaded::{push_assignable, push_loaded};
use crate::shown::push_wirings;
use cases_text::Cases;
use cases_worlds::{cut, known_revision, known_revisions, number, revision_id};
use osgi_base::List;
use osgi_resolver::IndexedWirings;
use osgi_world::Known;
use std::alloc::{AllocError, Global};

/// The budget where a row gives none.
const AMPLE: u32 = 1_000_000;

fn budget(text: &str) -> u32 {
    if text.is_empty() { AMPLE } else { number(text) }
}

/// Adds `; `, unless an answer is the first.
fn begin(out: &mut String) -> Result<(), AllocError> {
    if out.is_empty() {
        return Ok(());
    }
    out.push_str("; ")
}

/// Makes a revision known, or says that it cannot be.
fn make_known(
    alloc: Global,
    out: &mut String,
    wirings: &mut IndexedWirings,
    text: &str,
) -> Result<(), AllocError> {
    if add(wirings, known_revision(alloc, text)?)? {
        return Ok(());
    }
    begin(out)?;
    out.push_str("cannot be known")
}

/// The call that a word names.
fn call_of(word: &str) -> Option<Call> {
    if word == "anew" {
        Some(Call::Anew)
    } else if word == "slowly" {
        Some(Call::Slowly)
    } else if word == "problem" {
        Some(Call::Problem)
    } else if word == "solve" {
        Some(Call::Solve)
    } else {
        None
    }
}

/// Adds the answer to a question about a world.
fn push_answer(
    alloc: Global,
    out: &mut String,
    wirings: &mut IndexedWirings,
    question: (&str, &str),
) -> Result<(), AllocError> {
    let (word, rest) = question;
    let (root, allowed) = cut(rest);
    if let Some(call) = call_of(word) {
        let now = wirings.wirings();
        push_called(alloc, out, now, call, revision_id(root), budget(allowed))
    } else if word == "resolve" {
        push_resolved(out, wirings, revision_id(root), budget(allowed))
    } else if word == "load" {
        push_loaded(alloc, out, wirings.wirings(), rest)
    } else if word == "assignable" {
        push_assignable(alloc, out, wirings.wirings(), rest)
    } else if word == "wires" {
        let wirings = wirings.wirings().world().wirings.items();
        push_wirings(out, wirings.get(1..).unwrap_or(&[]))
    } else {
        out.push_str("no step")
    }
}

fn take(
    alloc: Global,
    out: &mut String,
    wirings: &mut IndexedWirings,
    step: &str,
) -> Result<(), AllocError> {
    let (word, rest) = cut(step);
    if word == "add" {
        return make_known(alloc, out, wirings, rest);
    }
    begin(out)?;
    push_answer(alloc, out, wirings, (word, rest))
}

fn take_all(
    alloc: Global,
    out: &mut String,
    wirings: &mut IndexedWirings,
    steps: &str,
) -> Result<(), AllocError> {
    for step in steps.split(';') {
        take(alloc, out, wirings, step.trim())?;
    }
    Ok(())
}

/// Makes the first revisions of a row known, and adds the answers to its steps.
fn push_all(
    alloc: Global,
    out: &mut String,
    wirings: &mut IndexedWirings,
    revisions: List<Known>,
    steps: &str,
) -> Result<(), AllocError> {
    if !add_all(wirings, revisions)? {
        return out.push_str("cannot be known");
    }
    take_all(alloc, out, wirings, steps)
}

/// The resolver.
#[derive(Drop)]
pub struct ResolverCases;

impl Cases for ResolverCases {
    fn add_answer(
        &mut self,
        alloc: Global,
        out: &mut String,
        case: &str,
    ) -> Result<(), AllocError> {
        let (known, steps) = case.split_once('|').unwrap_or((case, ""));
        let revisions = known_revisions(alloc, known)?;
        let mut wirings = first_wirings(alloc)?;
        push_all(alloc, out, &mut wirings, revisions, steps)
    }
}
