//! Folders as rows give them: a manifest, and other files after each `|`.

use cases_text::bytes_of;
use osgi_base::{File, Folder, List, Text};
use std::alloc::{AllocError, Global};

/// The path of a bundle's manifest.
const MANIFEST: &[u8] = b"META-INF/MANIFEST.MF";

/// The first word of a text, and what follows the space after it.
fn split_word(text: &str) -> (&str, &str) {
    text.split_once(' ').unwrap_or((text, ""))
}

fn file(alloc: Global, path: &[u8], bytes: &[u8]) -> Result<File, AllocError> {
    let path = Text::of(alloc, path)?;
    let bytes = Text::of(alloc, bytes)?;
    Ok(File { path, bytes })
}

/// The file of `file PATH TEXT`.
fn given_file(alloc: Global, piece: &str) -> Result<File, AllocError> {
    let (_, given) = split_word(piece);
    let (path, text) = split_word(given);
    let path = bytes_of(alloc, path)?;
    let bytes = bytes_of(alloc, text)?;
    file(alloc, path.as_slice(), bytes.as_slice())
}

/// Adds the files that a row gives after its first part.
fn add_given(alloc: Global, files: &mut List<File>, given: Option<&str>) -> Result<(), AllocError> {
    let Some(given) = given else {
        return Ok(());
    };
    for piece in given.split('|') {
        let file = given_file(alloc, piece)?;
        files.push(file)?;
    }
    Ok(())
}

/// The part of a text before the first `|`, and what follows that.
fn first_part(text: &str) -> (&str, Option<&str>) {
    match text.split_once('|') {
        Some((first, rest)) => (first, Some(rest)),
        None => (text, None),
    }
}

/// The folder with this manifest and the files given after it.
fn folder(alloc: Global, manifest: &[u8], given: Option<&str>) -> Result<Folder, AllocError> {
    let mut files = List::new(alloc)?;
    let manifest = file(alloc, MANIFEST, manifest)?;
    files.push(manifest)?;
    add_given(alloc, &mut files, given)?;
    Ok(Folder { files })
}

/// The folder of `manifest TEXT|file PATH TEXT..`, after the word.
pub fn with_manifest(alloc: Global, text: &str) -> Result<Folder, AllocError> {
    let (text, given) = first_part(text);
    let bytes = bytes_of(alloc, text)?;
    folder(alloc, bytes.as_slice(), given)
}

/// The folder of `folder|file PATH TEXT..`, after the word.
pub fn without_manifest(alloc: Global, text: &str) -> Result<Folder, AllocError> {
    let mut files = List::new(alloc)?;
    add_given(alloc, &mut files, first_part(text).1)?;
    Ok(Folder { files })
}

/// The folder of `long N TEXT|TEXT`, after the word: its manifest has N times the byte `x` between the texts.
pub fn with_long_line(alloc: Global, text: &str) -> Result<Folder, AllocError> {
    let (number, text) = split_word(text);
    let number: usize = number.parse().unwrap_or(0);
    let (before, after) = first_part(text);
    let mut bytes = bytes_of(alloc, before)?;
    bytes.extend_from_slice(vec![in alloc; b'x'; number]?.as_slice())?;
    bytes.extend_from_slice(bytes_of(alloc, after.unwrap_or(""))?.as_slice())?;
    folder(alloc, bytes.as_slice(), None)
}
