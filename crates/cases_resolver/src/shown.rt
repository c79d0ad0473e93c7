//! Answers as rows show them.

use cases_text::push_bytes;
use osgi_base::RevisionId;
use osgi_resolver::Cause;
use osgi_wiring::Wirings;
use osgi_world::{CapRef, Choice, ReqRef, Requirement, Wire, Wiring};
use std::alloc::AllocError;
use std::fmt::Write;

/// Adds `[NUMBER NUMBER]`.
fn push_word(out: &mut String, word: &[u64]) -> Result<(), AllocError> {
    out.push('[')?;
    let mut before = "";
    for value in word {
        write!(out, "{before}{value}")?;
        before = " ";
    }
    out.push(']')
}

fn push_fragments(out: &mut String, fragments: &[RevisionId]) -> Result<(), AllocError> {
    for fragment in fragments {
        write!(out, " +{}", fragment.0)?;
    }
    Ok(())
}

fn push_capability(out: &mut String, place: CapRef) -> Result<(), AllocError> {
    write!(out, "{}", place.provider.0)?;
    if place.owner != place.provider {
        write!(out, ".{}", place.owner.0)?;
    }
    write!(out, ".{}", place.index)
}

fn push_wires(out: &mut String, wires: &[Wire]) -> Result<(), AllocError> {
    for wire in wires {
        let asked = wire.requirement;
        write!(out, " {}.{}>", asked.owner.0, asked.index)?;
        push_capability(out, wire.capability)?;
    }
    Ok(())
}

/// Adds `ID +FRAGMENT .. WIRE ..`.
fn push_wiring(out: &mut String, wiring: &Wiring) -> Result<(), AllocError> {
    write!(out, "{}", wiring.revision.0)?;
    push_fragments(out, wiring.fragments.items())?;
    push_wires(out, wiring.wires.items())
}

/// Adds `WIRING, WIRING`, or `none`.
pub fn push_wirings(out: &mut String, wirings: &[Wiring]) -> Result<(), AllocError> {
    if wirings.is_empty() {
        return out.push_str("none");
    }
    let mut before = "";
    for wiring in wirings {
        out.push_str(before)?;
        push_wiring(out, wiring)?;
        before = ", ";
    }
    Ok(())
}

/// Adds `found [NUMBER NUMBER]`.
pub fn push_first(out: &mut String, word: &[u64]) -> Result<(), AllocError> {
    out.push_str("found ")?;
    push_word(out, word)
}

/// Adds `found [NUMBER NUMBER] WIRING, WIRING`.
pub fn push_found(out: &mut String, word: &[u64], added: &[Wiring]) -> Result<(), AllocError> {
    push_first(out, word)?;
    out.push(' ')?;
    push_wirings(out, added)
}

/// Adds `REQUIREMENT> CAPABILITY ..`.
fn push_row(out: &mut String, row: &Choice) -> Result<(), AllocError> {
    let asked = row.requirement;
    write!(out, "{}.{}>", asked.owner.0, asked.index)?;
    for capability in row.candidates.items() {
        out.push(' ')?;
        push_capability(out, *capability)?;
    }
    Ok(())
}

/// Adds `REQUIREMENT> CAPABILITY .., REQUIREMENT> CAPABILITY ..`, or `none`.
pub fn push_rows(out: &mut String, rows: &[Choice]) -> Result<(), AllocError> {
    if rows.is_empty() {
        return out.push_str("none");
    }
    let mut before = "";
    for row in rows {
        out.push_str(before)?;
        push_row(out, row)?;
        before = ", ";
    }
    Ok(())
}

fn requirement(wirings: &Wirings, place: ReqRef) -> Option<&Requirement> {
    let known = wirings.known(place.owner)?;
    let requirements = &known.revision.get().requirements;
    requirements.items().get(place.index as usize)
}

/// Adds `no candidate NAMESPACE NAME`.
fn push_requirement(out: &mut String, asked: Option<&Requirement>) -> Result<(), AllocError> {
    out.push_str("no candidate ")?;
    let Some(asked) = asked else {
        return out.push_str("of what is not there");
    };
    push_bytes(out, asked.namespace.bytes())?;
    out.push(' ')?;
    push_bytes(out, asked.name.bytes())
}

/// Adds why nothing can be chosen.
pub fn push_cause(out: &mut String, wirings: &Wirings, cause: Cause) -> Result<(), AllocError> {
    match cause {
        Cause::NoCandidate(place) => push_requirement(out, requirement(wirings, place)),
        Cause::Clash => out.push_str("clash"),
    }
}
