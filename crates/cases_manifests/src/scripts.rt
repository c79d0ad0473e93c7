//! The scripts of bundles, by what their folders mean.

use crate::manifests::{push_activator, push_fault};
use cases_text::push_bytes;
use osgi_base::Folder;
use osgi_manifest::{Meaning, read_meaning};
use osgi_session::Part;
use std::alloc::{AllocError, Global};
use std::fmt::Write;

/// Adds how many statements each section has.
fn push_counts(out: &mut String, sections: &[Part]) -> Result<(), AllocError> {
    out.push('[')?;
    for part in sections {
        let count = part.statements.items().len();
        write!(out, "{count}|")?;
    }
    out.push(']')
}

fn push_script(out: &mut String, meaning: &Meaning) -> Result<(), AllocError> {
    push_bytes(out, meaning.revision.name.bytes())?;
    push_activator(out, &meaning.revision.activator)?;
    out.push_str(" script: ")?;
    push_counts(out, meaning.script.sections.items())
}

/// Adds the name of the bundle that a folder means, its activator, and how long the sections of its script are.
pub fn script(alloc: Global, out: &mut String, folder: &Folder) -> Result<(), AllocError> {
    match read_meaning(alloc, folder)? {
        Ok(meaning) => push_script(out, &meaning),
        Err(fault) => push_fault(out, &fault),
    }
}
