//! Answers as rows show them.

use cases_text::push_bytes;
use osgi_base::RevisionId;
use osgi_space::Implied;
use osgi_uses::Clash;
use osgi_world::{CapRef, ReqRef};
use std::alloc::AllocError;
use std::fmt::Write;

fn push_number(out: &mut String, number: u32) -> Result<(), AllocError> {
    write!(out, "{number}")
}

/// Adds `[ID ID]`.
pub fn push_ids(out: &mut String, revisions: &[RevisionId]) -> Result<(), AllocError> {
    let mut before = '[';
    if revisions.is_empty() {
        out.push('[')?;
    }
    for revision in revisions {
        out.push(before)?;
        push_number(out, revision.0)?;
        before = ' ';
    }
    out.push(']')
}

fn push_pair(out: &mut String, pair: &Implied) -> Result<(), AllocError> {
    push_number(out, pair.seen_by.0)?;
    out.push(':')?;
    push_bytes(out, pair.package.bytes())
}

/// Adds `[ID:PACKAGE ID:PACKAGE]`.
pub fn push_pairs(out: &mut String, pairs: &[Implied]) -> Result<(), AllocError> {
    let mut before = '[';
    if pairs.is_empty() {
        out.push('[')?;
    }
    for pair in pairs {
        out.push(before)?;
        push_pair(out, pair)?;
        before = ' ';
    }
    out.push(']')
}

fn push_requirement(out: &mut String, place: &ReqRef) -> Result<(), AllocError> {
    write!(out, "{}.{}", place.owner.0, place.index)
}

/// Adds `[OWNER.PLACE OWNER.PLACE]`.
pub fn push_requirements(out: &mut String, places: &[ReqRef]) -> Result<(), AllocError> {
    let mut before = '[';
    if places.is_empty() {
        out.push('[')?;
    }
    for place in places {
        out.push(before)?;
        push_requirement(out, place)?;
        before = ' ';
    }
    out.push(']')
}

fn push_capability(out: &mut String, place: &CapRef) -> Result<(), AllocError> {
    let (provider, owner) = (place.provider.0, place.owner.0);
    write!(out, "{provider}.{owner}.{}", place.index)
}

/// Adds `[PROVIDER.OWNER.PLACE PROVIDER.OWNER.PLACE]`.
pub fn push_capabilities(out: &mut String, places: &[CapRef]) -> Result<(), AllocError> {
    let mut before = '[';
    if places.is_empty() {
        out.push('[')?;
    }
    for place in places {
        out.push(before)?;
        push_capability(out, place)?;
        before = ' ';
    }
    out.push(']')
}

/// Adds `ID PACKAGE [ID ID] [ID ID]`.
pub fn push_clash(out: &mut String, clash: &Clash) -> Result<(), AllocError> {
    push_number(out, clash.revision.0)?;
    out.push(' ')?;
    push_bytes(out, clash.package.bytes())?;
    out.push(' ')?;
    push_ids(out, clash.ours.items())?;
    out.push(' ')?;
    push_ids(out, clash.theirs.items())
}
