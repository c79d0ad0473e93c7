//! What whole folders mean by their manifests.

use crate::members::{push_any_capabilities, push_any_requirement, push_any_requirements};
use crate::shown::push_texts;
use cases_text::push_bytes;
use osgi_base::{Folder, Text};
use osgi_manifest::read;
use osgi_world::{ManifestFault, Requirement, Revision};
use std::alloc::{AllocError, Global};
use std::fmt::Write;

/// Adds a fault of a manifest.
pub fn push_fault(out: &mut String, fault: &ManifestFault) -> Result<(), AllocError> {
    out.push_str("fault ")?;
    if fault.header.bytes().is_empty() {
        out.push('-')?;
    }
    push_bytes(out, fault.header.bytes())?;
    let (kind, at) = (fault.kind, fault.at);
    write!(out, " {kind:?} {at}")
}

fn push_identity(alloc: Global, out: &mut String, revision: &Revision) -> Result<(), AllocError> {
    push_bytes(out, revision.name.bytes())?;
    out.push(' ')?;
    push_bytes(out, revision.version.print(alloc)?.as_slice())?;
    out.push_str(if revision.singleton {
        " singleton"
    } else {
        " no-singleton"
    })?;
    out.push_str(if revision.attach {
        " attach"
    } else {
        " no-attach"
    })
}

fn push_host(
    alloc: Global,
    out: &mut String,
    host: &Option<Requirement>,
) -> Result<(), AllocError> {
    out.push_str(" host: ")?;
    match host {
        Some(host) => push_any_requirement(alloc, out, host),
        None => out.push_str("none"),
    }
}

/// Adds the class of an activator.
pub fn push_activator(out: &mut String, activator: &Option<Text>) -> Result<(), AllocError> {
    out.push_str(" activator: ")?;
    match activator {
        Some(class) => {
            out.push('"')?;
            push_bytes(out, class.bytes())?;
            out.push('"')
        }
        None => out.push_str("none"),
    }
}

/// Adds what a revision has that no manifest says yet.
fn push_later(alloc: Global, out: &mut String, revision: &Revision) -> Result<(), AllocError> {
    if !revision.dynamics.items().is_empty() {
        out.push_str(" dynamics: ")?;
        push_any_requirements(alloc, out, revision.dynamics.items())?;
    }
    if revision.lazy.is_some() {
        out.push_str(" lazy")?;
    }
    Ok(())
}

fn push_revision(alloc: Global, out: &mut String, revision: &Revision) -> Result<(), AllocError> {
    push_identity(alloc, out, revision)?;
    push_host(alloc, out, &revision.host)?;
    push_activator(out, &revision.activator)?;
    out.push_str(" capabilities: ")?;
    push_any_capabilities(alloc, out, revision.capabilities.items())?;
    out.push_str(" requirements: ")?;
    push_any_requirements(alloc, out, revision.requirements.items())?;
    push_later(alloc, out, revision)?;
    out.push_str(" files: ")?;
    push_texts(out, revision.files.items())
}

/// Adds what a folder means.
pub fn meaning(alloc: Global, out: &mut String, folder: &Folder) -> Result<(), AllocError> {
    match read(alloc, folder)? {
        Ok(revision) => push_revision(alloc, out, &revision),
        Err(fault) => push_fault(out, &fault),
    }
}
