//! Worlds of a row.

use crate::drafts::{draft_of, revision};
use crate::numbers::{cut, number, revision_id, text_of};
use osgi_base::{BundleId, List, RevisionId, Shared};
use osgi_world::{CapRef, Known, ReqRef, Revision, Wire, Wiring, World};
use std::alloc::{AllocError, Global};

/// The revision of this name and these words, and whether it is current.
fn named(alloc: Global, name: &str, words: &str) -> Result<(Revision, bool), AllocError> {
    let name = text_of(alloc, name)?;
    let draft = draft_of(alloc, words)?;
    let current = !draft.old;
    Ok((revision(alloc, name, draft)?, current))
}

/// The known revision that is written `ID NAME WORD ..` or `ID/BUNDLE NAME WORD ..`.
pub fn known_revision(alloc: Global, text: &str) -> Result<Known, AllocError> {
    let (ids, rest) = cut(text);
    let (name, words) = cut(rest);
    let (id, bundle) = ids.split_once('/').unwrap_or((ids, ids));
    let (revision, current) = named(alloc, name, words)?;
    Ok(Known {
        id: revision_id(id),
        bundle: BundleId(number(bundle)),
        current,
        revision: Shared::new(alloc, revision)?,
    })
}

/// The known revisions that are written with `;` between.
pub fn known_revisions(alloc: Global, text: &str) -> Result<List<Known>, AllocError> {
    let mut all = List::new(alloc)?;
    for part in text.split(';') {
        let part = part.trim();
        if !part.is_empty() {
            all.push(known_revision(alloc, part)?)?;
        }
    }
    Ok(all)
}

fn requirement_place(text: &str) -> ReqRef {
    let (owner, index) = text.split_once('.').unwrap_or((text, ""));
    ReqRef {
        owner: revision_id(owner),
        index: number(index),
    }
}

fn capability_place(text: &str) -> CapRef {
    let (provider, rest) = text.split_once('.').unwrap_or((text, ""));
    let (owner, index) = rest.split_once('.').unwrap_or((provider, rest));
    CapRef {
        provider: revision_id(provider),
        owner: revision_id(owner),
        index: number(index),
    }
}

/// The wire that is written `OWNER.PLACE>PROVIDER.PLACE` or `OWNER.PLACE>PROVIDER.FRAGMENT.PLACE`.
pub fn wire(text: &str) -> Wire {
    let (asked, given) = text.split_once('>').unwrap_or((text, ""));
    Wire {
        requirement: requirement_place(asked),
        capability: capability_place(given),
    }
}

fn wires(alloc: Global, words: &str) -> Result<List<Wire>, AllocError> {
    let mut wires = List::new(alloc)?;
    for word in words.split_whitespace() {
        if !word.starts_with('+') {
            wires.push(wire(word))?;
        }
    }
    Ok(wires)
}

fn fragments(alloc: Global, words: &str) -> Result<List<RevisionId>, AllocError> {
    let mut fragments = List::new(alloc)?;
    for word in words.split_whitespace() {
        if let Some(fragment) = word.strip_prefix("+") {
            fragments.push(revision_id(fragment))?;
        }
    }
    Ok(fragments)
}

/// The wiring that is written `ID +FRAGMENT .. WIRE ..`.
fn wiring(alloc: Global, text: &str) -> Result<Wiring, AllocError> {
    let (id, words) = cut(text);
    Ok(Wiring {
        revision: revision_id(id),
        wires: wires(alloc, words)?,
        fragments: fragments(alloc, words)?,
    })
}

fn wirings(alloc: Global, text: &str) -> Result<List<Wiring>, AllocError> {
    let mut all = List::new(alloc)?;
    for part in text.split(';') {
        let part = part.trim();
        if !part.is_empty() {
            all.push(wiring(alloc, part)?)?;
        }
    }
    Ok(all)
}

/// The world of these revisions and wirings.
pub fn world(alloc: Global, revisions: &str, wired: &str) -> Result<World, AllocError> {
    let known = known_revisions(alloc, revisions)?;
    Ok(World {
        known,
        wirings: wirings(alloc, wired)?,
    })
}
