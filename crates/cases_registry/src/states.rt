//! Entries about bundles, which no call of the registry leaves.

use crate::scanned::TAG;
use cases_text::{put, text_of};
use osgi_base::{BundleId, List, Text};
use osgi_ops::{Entry, Op, Refusal, Reply, Target};
use std::alloc::{AllocError, Global};

/// The entry of an operation and its reply.
fn entry(op: Op, reply: Reply) -> Entry {
    Entry {
        tag: TAG,
        op,
        reply,
    }
}

/// The entry of a begin of a start or of a stop of the bundle.
fn begin(word: &str, bundle: BundleId) -> Option<Entry> {
    let begun = Reply::Begun { bundle, row: 1 };
    let transient = false;
    match word {
        "starting" => Some(entry(Op::BeginStart { bundle, transient }, begun)),
        "stopping" => {
            let target = Target::Id(bundle);
            Some(entry(Op::BeginStop { target, transient }, begun))
        }
        _ => None,
    }
}

/// The entry of an end of a start or of a stop of the bundle.
fn end(word: &str, bundle: BundleId) -> Option<Entry> {
    let failure = Reply::Refused {
        refusal: Refusal::ActivatorError,
    };
    match word {
        "started" => {
            let failed = false;
            Some(entry(Op::EndStart { bundle, failed }, Reply::Done))
        }
        "failed" => {
            let failed = true;
            Some(entry(Op::EndStart { bundle, failed }, failure))
        }
        "stopped" => {
            let failed = false;
            Some(entry(Op::EndStop { bundle, failed }, Reply::Done))
        }
        _ => None,
    }
}

/// The entry that installs the bundle from the location or finds it there, updates it to the location, or uninstalls it.
fn install(word: &str, bundle: BundleId, location: Text) -> Option<Entry> {
    match word {
        "installed" => {
            let known = false;
            Some(entry(Op::Install { location }, Reply::Bundle { bundle, known }))
        }
        "known" => {
            let known = true;
            Some(entry(Op::Install { location }, Reply::Bundle { bundle, known }))
        }
        "updated" => Some(entry(Op::Update { bundle, location }, Reply::Done)),
        "uninstalled" => Some(entry(Op::Uninstall { bundle }, Reply::Done)),
        _ => None,
    }
}

/// The entry that resolves the bundles, or removes their wirings.
fn resolve(word: &str, bundle: BundleId, bundles: List<BundleId>) -> Option<Entry> {
    match word {
        "resolved" => Some(entry(Op::Resolve { bundle }, Reply::Resolved { added: bundles })),
        "dropped" => Some(entry(Op::DropWirings, Reply::Ids { ids: bundles })),
        _ => None,
    }
}

/// The list of the bundle alone.
fn alone(alloc: Global, bundle: BundleId) -> Result<List<BundleId>, AllocError> {
    let mut bundles = List::new(alloc)?;
    bundles.push(bundle)?;
    Ok(bundles)
}

/// The entry after which the word says what became of the bundle.
fn entry_by(alloc: Global, word: &str, bundle: BundleId) -> Result<Option<Entry>, AllocError> {
    if let Some(entry) = begin(word, bundle) {
        return Ok(Some(entry));
    }
    if let Some(entry) = end(word, bundle) {
        return Ok(Some(entry));
    }
    if let Some(entry) = resolve(word, bundle, alone(alloc, bundle)?) {
        return Ok(Some(entry));
    }
    Ok(install(word, bundle, text_of(alloc, "a")?))
}

/// Adds the entry after which the word says what became of the bundle.
pub fn leave(
    alloc: Global,
    out: &mut String,
    entries: &mut Vec<Entry>,
    word: &str,
    bundle: BundleId,
) -> Result<(), AllocError> {
    let Some(entry) = entry_by(alloc, word, bundle)? else {
        return put(out, "no such entry");
    };
    entries.push(entry)?;
    put(out, "left")
}
