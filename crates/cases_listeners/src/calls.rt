//! Calls of the live listeners.

use crate::kept::Kept;
use crate::words::{code, kind_of, number, small, tag_of};
use cases_text::{number_of, put, split_at, split_word, text_of};
use osgi_base::{BundleId, ListenerId};
use osgi_filter::parse;
use osgi_listeners::Sight;
use osgi_model::Filter;
use osgi_ops::{Event, Kind};
use std::alloc::{AllocError, Global};

fn ids_of(alloc: Global, words: &str) -> Result<Vec<u32>, AllocError> {
    let mut ids = Vec::new(alloc);
    for word in words.split(' ') {
        ids.push(small(word))?;
    }
    Ok(ids)
}

/// The sight that a word writes: its place, listener and code.
fn sight_of(word: &str) -> Sight {
    let (place, rest) = split_at(word, ":");
    let (listener, event) = split_at(rest, ":");
    Sight {
        listener: ListenerId(small(listener)),
        place: small(place),
        event: Event::Framework { code: code(event) },
    }
}

fn sights_of(alloc: Global, words: &str) -> Result<Vec<Sight>, AllocError> {
    let mut sights = Vec::new(alloc);
    for word in words.split(' ') {
        sights.push(sight_of(word))?;
    }
    Ok(sights)
}

/// The filter that a text writes; none where it writes none.
fn filter_of(alloc: Global, text: &str) -> Result<Option<Filter>, AllocError> {
    Ok(parse(alloc, text.as_bytes())?.ok())
}

fn add(alloc: Global, out: &mut String, kept: &mut Kept, text: &str) -> Result<(), AllocError> {
    let (owner, rest) = split_word(text);
    let (name, rest) = split_word(rest);
    let (kind, filter) = split_word(rest);
    let name = text_of(alloc, name)?;
    let filter = filter_of(alloc, filter)?;
    kept.add(out, BundleId(small(owner)), name, kind_of(kind), filter)
}

fn fill(alloc: Global, out: &mut String, kept: &mut Kept, count: u32) -> Result<(), AllocError> {
    let mut answer = String::new(alloc);
    for number in 0..count {
        let name = format!(in alloc; "{number}")?;
        let name = text_of(alloc, name.as_str())?;
        answer.clear();
        kept.add(&mut answer, BundleId(9), name, Kind::Framework, None)?;
    }
    put(out, answer.as_str())
}

fn remove(alloc: Global, out: &mut String, kept: &mut Kept, text: &str) -> Result<(), AllocError> {
    let (owner, name) = split_word(text);
    let name = text_of(alloc, name)?;
    kept.remove(out, BundleId(small(owner)), &name)
}

fn see(alloc: Global, out: &mut String, kept: &mut Kept, text: &str) -> Result<(), AllocError> {
    let (entry, rest) = split_word(text);
    let sights = sights_of(alloc, rest)?;
    kept.see(out, number(entry), &sights)
}

fn post(alloc: Global, out: &mut String, kept: &mut Kept, text: &str) -> Result<(), AllocError> {
    let (place, rest) = split_word(text);
    let (event, ids) = split_word(rest);
    let ids = ids_of(alloc, ids)?;
    kept.post(out, number(place), code(event), &ids)
}

fn end(out: &mut String, kept: &mut Kept, text: &str) -> Result<(), AllocError> {
    let (tag, listener) = tag_of(text);
    kept.end_hand(out, tag, ListenerId(small(listener)))
}

/// Adds what a call that changes the listeners answers.
fn add_change(
    alloc: Global,
    out: &mut String,
    kept: &mut Kept,
    word: &str,
    rest: &str,
) -> Result<(), AllocError> {
    if word == "add" {
        add(alloc, out, kept, rest)
    } else if word == "fill" {
        fill(alloc, out, kept, small(rest))
    } else if word == "remove" {
        remove(alloc, out, kept, rest)
    } else if word == "remove_all" {
        kept.remove_all(out, BundleId(small(rest)))
    } else if word == "reserve" {
        kept.reserve(out, number(rest))
    } else if word == "see" {
        see(alloc, out, kept, rest)
    } else if word == "post" {
        post(alloc, out, kept, rest)
    } else if word == "hand" {
        kept.hand(out, tag_of(rest).0)
    } else if word == "end" {
        end(out, kept, rest)
    } else {
        put(out, "no such call")
    }
}

/// The bundle whose listeners go; none where no number stands for it.
fn bundle_if_any(word: &str) -> Option<BundleId> {
    number_of(word).map(|number| BundleId(u32::try_from(number).unwrap_or(u32::MAX)))
}

fn seen(alloc: Global, out: &mut String, kept: &Kept, text: &str) -> Result<(), AllocError> {
    let (removed, words) = split_word(text);
    kept.seen(alloc, out, words, bundle_if_any(removed))
}

/// Adds what a call answers that asks before a change.
fn add_question(
    alloc: Global,
    out: &mut String,
    kept: &mut Kept,
    word: &str,
    rest: &str,
) -> Result<(), AllocError> {
    let (owner, name) = split_word(rest);
    let owner = BundleId(small(owner));
    if word == "ready" {
        kept.ready(out)
    } else if word == "next" {
        kept.next(out)
    } else if word == "busy" {
        kept.busy(out)
    } else if word == "next_id" {
        kept.next_id(out)
    } else if word == "has" {
        kept.has(out, owner, &text_of(alloc, name)?)
    } else if word == "refusal" {
        kept.add_refusal(out, owner, &text_of(alloc, name)?)
    } else if word == "seen" {
        seen(alloc, out, kept, rest)
    } else {
        add_change(alloc, out, kept, word, rest)
    }
}

/// Adds what a call answers.
fn add_call(
    alloc: Global,
    out: &mut String,
    kept: &mut Kept,
    call: &str,
) -> Result<(), AllocError> {
    let (word, rest) = split_word(call);
    if word == "count" {
        kept.count(out)
    } else if word == "at" {
        kept.at(out, number(rest) as usize)
    } else if word == "row" {
        kept.row(out, ListenerId(small(rest)))
    } else if word == "owned" {
        kept.owned(out, BundleId(small(rest)))
    } else if word == "kind" {
        kept.of_kind(out, kind_of(rest))
    } else {
        add_question(alloc, out, kept, word, rest)
    }
}

/// Adds what the calls answer, one after another, on listeners of their own.
pub fn add_calls(alloc: Global, out: &mut String, case: &str) -> Result<(), AllocError> {
    let mut kept = Kept::new(alloc)?;
    let mut is_first = true;
    for call in case.split("; ") {
        if !is_first {
            put(out, "; ")?;
        }
        is_first = false;
        add_call(alloc, out, &mut kept, call)?;
    }
    Ok(())
}
