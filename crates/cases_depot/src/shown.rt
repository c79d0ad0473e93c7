//! Rows of a depot and their scripts, as answers show them.

use cases_text::push_bytes;
use osgi_depot::Folders;
use osgi_ops::{DepotRow, Stored};
use osgi_session::{Part, Script};
use osgi_world::ManifestFault;
use std::alloc::{AllocError, Global};
use std::fmt::Write;

fn push_fault(out: &mut String, fault: &ManifestFault) -> Result<(), AllocError> {
    out.push_str("bad, ")?;
    if fault.header.bytes().is_empty() {
        out.push('-')?;
    }
    push_bytes(out, fault.header.bytes())?;
    let (kind, at) = (fault.kind, fault.at);
    write!(out, " {kind:?} {at}")
}

fn push_stored(out: &mut String, stored: &Stored) -> Result<(), AllocError> {
    match stored {
        Stored::Read { revision, manifest } => {
            out.push_str("read, ")?;
            push_bytes(out, revision.get().name.bytes())?;
            out.push(' ')?;
            push_bytes(out, manifest.bytes())
        }
        Stored::Bad(fault) => push_fault(out, fault),
        Stored::NoFolder => out.push_str("no folder"),
        Stored::TooLarge { bytes, files } => {
            write!(out, "too large, {bytes} bytes in {files} files")
        }
        Stored::Failed { before, after } => write!(out, "failed, {before} to {after}"),
        Stored::Skipped => out.push_str("skipped"),
    }
}

/// Adds how many statements each section of a script has, if it has sections.
fn push_script(out: &mut String, sections: &[Part]) -> Result<(), AllocError> {
    for part in sections {
        let count = part.statements.items().len();
        write!(out, " {count}|")?;
    }
    Ok(())
}

fn push_row(out: &mut String, row: &DepotRow, script: &Script) -> Result<(), AllocError> {
    push_bytes(out, row.location.bytes())?;
    out.push_str(": ")?;
    push_stored(out, &row.stored)?;
    push_script(out, script.sections.items())?;
    out.push_str("; ")
}

/// Adds rows and their scripts, each with `; ` after it.
fn push_rows(out: &mut String, rows: &[DepotRow], scripts: &[Script]) -> Result<(), AllocError> {
    for (row, script) in rows.iter().zip(scripts.iter()) {
        push_row(out, row, script)?;
    }
    Ok(())
}

/// Adds all rows.
pub fn push_all(out: &mut String, folders: &Folders) -> Result<(), AllocError> {
    let rows = folders.depot.rows.items();
    push_rows(out, rows, folders.scripts.rows.items())
}

/// Adds how many rows there are, and the last two of them.
pub fn push_last(out: &mut String, folders: &Folders) -> Result<(), AllocError> {
    let rows = folders.depot.rows.items();
    let scripts = folders.scripts.rows.items();
    let count = rows.len();
    write!(out, "{count} rows; ")?;
    push_rows(
        out,
        &rows[count.saturating_sub(2)..],
        &scripts[scripts.len().saturating_sub(2)..],
    )
}
