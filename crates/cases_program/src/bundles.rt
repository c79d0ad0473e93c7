//! Bundles that the shelf has.

use cases_text::bytes_of;
use osgi_base::{File, Folder, List, Text};
use std::alloc::{AllocError, Global};

/// What the manifest of each of them says, but for its name.
const MANIFEST: &[u8] = b"Bundle-ManifestVersion: 2\nBundle-Activator: a.A\nBundle-SymbolicName: ";

fn file(alloc: Global, path: &[u8], bytes: Vec<u8>) -> Result<File, AllocError> {
    let path = Text::of(alloc, path)?;
    let bytes = Text::from_vec(alloc, bytes)?;
    Ok(File { path, bytes })
}

/// The manifest of a bundle of this name.
fn manifest(alloc: Global, name: &[u8]) -> Result<File, AllocError> {
    let mut bytes = Vec::new(alloc);
    bytes.extend_from_slice(MANIFEST)?;
    bytes.extend_from_slice(name)?;
    bytes.push(b'\n')?;
    file(alloc, b"META-INF/MANIFEST.MF", bytes)
}

/// The bundle of `NAME SCRIPT`, whose location is its name: the script is that of its activator.
pub fn bundle(alloc: Global, text: &str) -> Result<(Text, Folder), AllocError> {
    let (name, script) = text.split_once(" ").unwrap_or((text, ""));
    let location = Text::of(alloc, name.as_bytes())?;
    let mut files = List::new(alloc)?;
    files.push(manifest(alloc, name.as_bytes())?)?;
    files.push(file(alloc, b"a/A.osc", bytes_of(alloc, script)?)?)?;
    Ok((location, Folder { files }))
}
