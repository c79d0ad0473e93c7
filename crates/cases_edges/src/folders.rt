//! The shelf over the file system, read at locations below the folder in which the program runs.

use crate::cases::{letters, put_faults};
use crate::shelves::put_too_large;
use cases_text::{put, put_debug, put_shown, text_of};
use osgi_base::File;
use osgi_outside::{DirShelf, Found, Shelf};
use std::alloc::{AllocError, Global};
use std::rt::Files;

/// The most bytes that are shown of a file.
const SHOWN: usize = 12;

/// Adds a file's path and length, and the bytes of a short one.
fn add_file(out: &mut String, file: &File) -> Result<(), AllocError> {
    let bytes = file.bytes.bytes();
    put(out, letters(file.path.bytes()))?;
    put(out, " (")?;
    put_shown(out, &bytes.len())?;
    put(out, " bytes")?;
    if bytes.len() <= SHOWN {
        put(out, ": ")?;
        put_debug(out, &letters(bytes))?;
    }
    put(out, "), ")
}

/// Adds the number of files and each of them.
fn add_files(out: &mut String, files: &[File]) -> Result<(), AllocError> {
    put_shown(out, &files.len())?;
    put(out, " files, ")?;
    for file in files {
        add_file(out, file)?;
    }
    Ok(())
}

/// Adds what stands at a location.
fn add_found(out: &mut String, found: &Found) -> Result<(), AllocError> {
    match found {
        Found::Folder(folder) => add_files(out, folder.files.items()),
        Found::NoFolder => put(out, "no folder, "),
        Found::TooLarge { bytes, files } => put_too_large(out, *bytes, *files),
        Found::Failed => put(out, "failed, "),
    }
}

/// Adds what a shelf has at a location.
fn add_read<S: Shelf>(
    alloc: Global,
    out: &mut String,
    shelf: &mut S,
    location: &str,
) -> Result<(), AllocError> {
    let location = text_of(alloc, location)?;
    add_found(out, &shelf.read(alloc, &location)?)
}

/// Adds what a shelf has at each of the locations, and its faults.
fn add_reads<S: Shelf>(
    alloc: Global,
    out: &mut String,
    shelf: &mut S,
    locations: &str,
) -> Result<(), AllocError> {
    for location in locations.split("|") {
        add_read(alloc, out, shelf, location)?;
    }
    put_faults(out, shelf.count())
}

/// The reads of one shelf at each of the locations, between which a `|` stands.
pub fn read_each<R: Files + AllocGlobal + Clone + Drop>(
    rt: &R,
    out: &mut String,
    locations: &str,
) -> Result<(), AllocError> {
    let mut shelf = DirShelf::new(rt);
    add_reads(rt.alloc(), out, &mut shelf, locations)
}
