//! The folders that the shelf has.

use osgi_base::{File, Folder, List, Text};
use std::alloc::{AllocError, Global};

/// The path of a bundle's manifest.
const MANIFEST: &[u8] = b"META-INF/MANIFEST.MF";

fn add_file(
    alloc: Global,
    folder: &mut Folder,
    path: &[u8],
    bytes: &[u8],
) -> Result<(), AllocError> {
    let path = Text::of(alloc, path)?;
    let bytes = Text::of(alloc, bytes)?;
    folder.files.push(File { path, bytes })
}

/// A folder of a file `a` and these manifests.
fn folder(alloc: Global, manifests: &[&[u8]]) -> Result<Folder, AllocError> {
    let files = List::new(alloc)?;
    let mut folder = Folder { files };
    add_file(alloc, &mut folder, b"a", b"")?;
    for manifest in manifests {
        add_file(alloc, &mut folder, MANIFEST, manifest)?;
    }
    Ok(folder)
}

/// A folder of this manifest, and this script as the file of the class `b.C`.
fn scripted(alloc: Global, manifest: &[u8], script: &[u8]) -> Result<Folder, AllocError> {
    let mut folder = folder(alloc, &[manifest])?;
    add_file(alloc, &mut folder, b"b/C.osc", script)?;
    Ok(folder)
}

/// A folder of one file more than a folder may have.
fn crowd(alloc: Global) -> Result<Folder, AllocError> {
    let files = List::new(alloc)?;
    let mut folder = Folder { files };
    for _ in 0..4_097 {
        add_file(alloc, &mut folder, b"a", b"")?;
    }
    Ok(folder)
}

/// Adds the folders with scripts.
fn add_scripted(alloc: Global, rows: &mut Vec<(Text, Folder)>) -> Result<(), AllocError> {
    let host: &[u8] = b"Bundle-ManifestVersion: 2\nBundle-SymbolicName: s\nBundle-Activator: b.C\n";
    let fragment: &[u8] =
        b"Bundle-ManifestVersion: 2\nBundle-SymbolicName: f\nFragment-Host: s\nBundle-Activator: b.C\n";
    let script: &[u8] = b"start:\nregister v a.A \"x\"\nprint \"y\"\non l:\nstop:\nunregister v\n";
    rows.push((
        Text::of(alloc, b"scripted")?,
        scripted(alloc, host, script)?,
    ))?;
    rows.push((
        Text::of(alloc, b"silent")?,
        scripted(alloc, host, b"# nothing\n")?,
    ))?;
    rows.push((
        Text::of(alloc, b"part")?,
        scripted(alloc, fragment, script)?,
    ))?;
    rows.push((
        Text::of(alloc, b"broken")?,
        scripted(alloc, host, b"start:\njump\n")?,
    ))?;
    Ok(())
}

/// The folders with their locations.
pub fn folders(alloc: Global) -> Result<Vec<(Text, Folder)>, AllocError> {
    let good: &[u8] = b"Bundle-ManifestVersion: 2\nBundle-SymbolicName: g\n";
    let first: &[u8] = b"Bundle-ManifestVersion: 2\nBundle-SymbolicName: t\n";
    let second: &[u8] = b"Bundle-ManifestVersion: 2\nBundle-SymbolicName: second\n";
    let old: &[u8] = b"Bundle-ManifestVersion: 1\nBundle-SymbolicName: o\n";
    let mut rows = Vec::new(alloc);
    rows.push((Text::of(alloc, b"good")?, folder(alloc, &[good])?))?;
    rows.push((Text::of(alloc, b"two")?, folder(alloc, &[first, second])?))?;
    rows.push((Text::of(alloc, b"old")?, folder(alloc, &[old])?))?;
    rows.push((Text::of(alloc, b"bare")?, folder(alloc, &[])?))?;
    rows.push((Text::of(alloc, b"crowd")?, crowd(alloc)?))?;
    add_scripted(alloc, &mut rows)?;
    Ok(rows)
}
