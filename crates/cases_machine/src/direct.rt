//! Operations that the framework has, and that no command of the console is.

use crate::listening::listening;
use cases_text::{split_word, text_of};
use osgi_base::{BundleId, Text};
use osgi_ops::{Op, Target};
use std::alloc::{AllocError, Global};

/// The operation of this name, about the bundle, that has no text. The word after the name says whether a start is transient, or
/// whether a section failed.
fn plain(name: &str, word: &str, bundle: BundleId) -> Option<Op> {
    let transient = word == "-t";
    let failed = word == "failed";
    match name {
        "TakeJob" => Some(Op::TakeJob),
        "EndJob" => Some(Op::EndJob),
        "BeginStart" => Some(Op::BeginStart { bundle, transient }),
        "EndStart" => Some(Op::EndStart { bundle, failed }),
        "EndStop" => Some(Op::EndStop { bundle, failed }),
        _ => None,
    }
}

/// The operation of this name that has a text; one about a bundle that the text names, or about the bundle.
fn wordy(name: &str, bundle: BundleId, text: Text) -> Option<Op> {
    let transient = false;
    match name {
        "QueueJob" => Some(Op::QueueJob {
            owner: bundle,
            name: text,
        }),
        "Load" => Some(Op::Load {
            bundle,
            class: text,
        }),
        "Print" => Some(Op::Print {
            owner: bundle,
            text,
        }),
        "Fail" => Some(Op::Fail {
            owner: bundle,
            text,
        }),
        "WishStart" => Some(Op::WishStart {
            target: Target::Name(text),
            transient,
        }),
        "BeginStop" => Some(Op::BeginStop {
            target: Target::Name(text),
            transient,
        }),
        _ => None,
    }
}

/// The operation that a text asks for, about the bundle.
pub fn direct(alloc: Global, text: &str, bundle: BundleId) -> Result<Option<Op>, AllocError> {
    let (name, rest) = split_word(text);
    if let Some(op) = listening(alloc, name, rest, bundle)? {
        return Ok(Some(op));
    }
    match plain(name, rest, bundle) {
        Some(op) => Ok(Some(op)),
        None => Ok(wordy(name, bundle, text_of(alloc, rest)?)),
    }
}
