//! A shelf in memory: what it finds, what is too large, and what fails.

use crate::cases::{put_faults, split_number, split_numbers};
use cases_text::{put, put_shown, text_of};
use osgi_base::{File, Folder, List, Text};
use osgi_outside::{Found, MemoryShelf, Shelf};
use std::alloc::{AllocError, Global};

/// A file of so many bytes.
fn file(alloc: Global, count: u64) -> Result<File, AllocError> {
    let path = text_of(alloc, "data")?;
    let bytes = Text::from_vec(alloc, vec![in alloc; b'x'; count as usize]?)?;
    Ok(File { path, bytes })
}

/// A folder of so many files, of which the first has so many bytes and the others none.
fn folder(alloc: Global, bytes: u64, files: u64) -> Result<Folder, AllocError> {
    let mut all = List::new(alloc)?;
    for at in 0..files {
        all.push(file(alloc, if at == 0 { bytes } else { 0 })?)?;
    }
    Ok(Folder { files: all })
}

/// A location, and a folder of so many files with so many bytes.
fn row(
    alloc: Global,
    location: &str,
    bytes: u64,
    files: u64,
) -> Result<(Text, Folder), AllocError> {
    let location = text_of(alloc, location)?;
    Ok((location, folder(alloc, bytes, files)?))
}

/// Folders of one file at `e`, `f` and again `f`, of 1, 2 and 3 bytes.
fn rows(alloc: Global) -> Result<Vec<(Text, Folder)>, AllocError> {
    let mut rows = Vec::new(alloc);
    for (location, bytes) in [("e", 1), ("f", 2), ("f", 3)] {
        rows.push(row(alloc, location, bytes, 1)?)?;
    }
    Ok(rows)
}

/// Adds the numbers of a folder that is too large.
pub fn put_too_large(out: &mut String, bytes: u64, files: u32) -> Result<(), AllocError> {
    put(out, "too large: ")?;
    put_shown(out, &files)?;
    put(out, " files, ")?;
    put_shown(out, &bytes)?;
    put(out, " bytes, ")
}

/// Adds what stands at a location: of a folder its files, and the bytes of the first.
fn add_found(out: &mut String, found: &Found) -> Result<(), AllocError> {
    match found {
        Found::Folder(folder) => add_files(out, folder.files.items()),
        Found::NoFolder => put(out, "no folder, "),
        Found::TooLarge { bytes, files } => put_too_large(out, *bytes, *files),
        Found::Failed => put(out, "failed, "),
    }
}

fn add_files(out: &mut String, files: &[File]) -> Result<(), AllocError> {
    match files {
        [] => put(out, "no file, "),
        [first, ..] => {
            put_shown(out, &files.len())?;
            put(out, " files, ")?;
            put_shown(out, &first.bytes.bytes().len())?;
            put(out, " bytes in the first, ")
        }
    }
}

fn add_read(
    alloc: Global,
    out: &mut String,
    shelf: &mut MemoryShelf,
    location: &str,
) -> Result<(), AllocError> {
    let location = text_of(alloc, location)?;
    add_found(out, &shelf.read(alloc, &location)?)
}

/// Adds what is found at each location, and the faults.
fn add_reads(
    alloc: Global,
    out: &mut String,
    shelf: &mut MemoryShelf,
    locations: &str,
) -> Result<(), AllocError> {
    for location in locations.split_whitespace() {
        add_read(alloc, out, shelf, location)?;
    }
    put_faults(out, shelf.count())
}

/// The reads of a shelf of three folders.
pub fn read_each(alloc: Global, out: &mut String, line: &str) -> Result<(), AllocError> {
    let (bad, locations) = split_number(line);
    let rows = rows(alloc)?;
    let mut shelf = MemoryShelf::new(rows, vec![in alloc; bad]?);
    add_reads(alloc, out, &mut shelf, locations)
}

/// The read of a folder of a size.
pub fn read_folder(alloc: Global, out: &mut String, line: &str) -> Result<(), AllocError> {
    let (bytes, files, _) = split_numbers(line);
    let row = row(alloc, "f", bytes, files)?;
    let mut shelf = MemoryShelf::new(vec![in alloc; row]?, Vec::new(alloc));
    add_reads(alloc, out, &mut shelf, "f")
}
