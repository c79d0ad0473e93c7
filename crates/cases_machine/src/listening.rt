//! Operations on listeners, and hands of events.

use cases_operations::number;
use cases_text::{split_word, text_of, value_if_any};
use osgi_base::{BundleId, ListenerId, Text};
use osgi_filter::parse;
use osgi_model::Filter;
use osgi_ops::{Kind, Op};
use std::alloc::{AllocError, Global};

/// The kinds by their words.
const KINDS: [(&str, Kind); 4] = [
    ("service", Kind::Service),
    ("all", Kind::All),
    ("bundle", Kind::Bundle),
    ("framework", Kind::Framework),
];

fn kind_named(name: &str) -> Option<Kind> {
    for (word, kind) in &KINDS {
        if *word == name {
            return Some(*kind);
        }
    }
    None
}

/// The filter that a text writes, if it writes one.
fn filter_of(alloc: Global, text: &str) -> Result<Option<Filter>, AllocError> {
    value_if_any(parse(alloc, text.as_bytes()))
}

/// The addition of a listener of this kind. A text that is not empty has to be its filter.
fn addition(
    alloc: Global,
    owner: BundleId,
    name: Text,
    kind: Kind,
    text: &str,
) -> Result<Option<Op>, AllocError> {
    let filter = filter_of(alloc, text)?;
    if filter.is_none() && !text.is_empty() {
        return Ok(None);
    }
    Ok(Some(Op::AddListener {
        owner,
        name,
        kind,
        filter,
    }))
}

/// The addition of a listener of the bundle, by its name, its kind and its filter.
fn added(alloc: Global, owner: BundleId, text: &str) -> Result<Option<Op>, AllocError> {
    let (name, rest) = split_word(text);
    let (kind, filter) = split_word(rest);
    let Some(kind) = kind_named(kind) else {
        return Ok(None);
    };
    addition(alloc, owner, text_of(alloc, name)?, kind, filter)
}

/// The removal of the bundle's listener of this name.
fn removed(alloc: Global, owner: BundleId, name: &str) -> Result<Option<Op>, AllocError> {
    let name = text_of(alloc, name)?;
    Ok(Some(Op::RemoveListener { owner, name }))
}

/// The operation of this name, about the bundle or about the listener that a text says.
pub fn listening(
    alloc: Global,
    name: &str,
    text: &str,
    bundle: BundleId,
) -> Result<Option<Op>, AllocError> {
    if name == "AddListener" {
        added(alloc, bundle, text)
    } else if name == "RemoveListener" {
        removed(alloc, bundle, text)
    } else if name == "EndHand" {
        let listener = ListenerId(number(text));
        Ok(Some(Op::EndHand { listener }))
    } else if name == "Hand" {
        Ok(Some(Op::Hand))
    } else {
        Ok(None)
    }
}
