//! What rows ask of the registry.

use crate::assignable::Assignable;
use crate::trial::Trial;
use cases_operations::asked::asked;
use cases_operations::{number, split_bundle};
use cases_text::{put, split_at, split_word};
use osgi_base::BundleId;
use std::alloc::{AllocError, Global};

fn begin(alloc: Global, out: &mut String, trial: &mut Trial) -> Result<(), AllocError> {
    *trial = Trial::new(alloc)?;
    put(out, "begun")
}

/// Asks for a bundle's command, where a test says which services are assignable.
fn ask(
    alloc: Global,
    out: &mut String,
    trial: &mut Trial,
    assignable: Assignable<'_>,
    text: &str,
) -> Result<(), AllocError> {
    let (bundle, command) = split_bundle(text);
    match asked(alloc, bundle, command)? {
        Ok(op) => trial.ask(out, &op, assignable),
        Err(why) => put(out, why),
    }
}

fn ask_where(
    alloc: Global,
    out: &mut String,
    trial: &mut Trial,
    text: &str,
) -> Result<(), AllocError> {
    let (test, call) = split_at(text, ": ");
    ask(alloc, out, trial, Assignable::of(test), call)
}

fn has(alloc: Global, out: &mut String, trial: &Trial, text: &str) -> Result<(), AllocError> {
    let (bundle, command) = split_bundle(text);
    match asked(alloc, bundle, command)? {
        Ok(op) => trial.has(out, &op),
        Err(why) => put(out, why),
    }
}

/// Leaves an entry that a word and a bundle say.
fn leave(out: &mut String, trial: &mut Trial, text: &str) -> Result<(), AllocError> {
    let (word, bundle) = split_word(text);
    trial.leave(out, word, BundleId(number(bundle)))
}

/// Adds the answer to a row.
pub fn add_answer(
    alloc: Global,
    out: &mut String,
    trial: &mut Trial,
    row: &str,
) -> Result<(), AllocError> {
    let (word, rest) = split_word(row);
    if word == "registry" {
        begin(alloc, out, trial)
    } else if word == "release" {
        trial.release(out, BundleId(number(rest)))
    } else if word == "count" {
        trial.count(out)
    } else if word == "has" {
        has(alloc, out, trial, rest)
    } else if word == "check" {
        trial.check(out)
    } else if word == "left" {
        leave(out, trial, rest)
    } else if word == "state" {
        trial.state(out, BundleId(number(rest)))
    } else if word == "where" {
        ask_where(alloc, out, trial, rest)
    } else {
        ask(alloc, out, trial, Assignable::All, row)
    }
}
