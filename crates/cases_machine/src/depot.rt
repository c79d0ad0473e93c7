//! The depots that machines of rows begin with.

use cases_text::{put_shown, split_word, text_of};
use osgi_base::{List, Shared, Text};
use osgi_ops::{Depot, DepotRow, Stored};
use osgi_world::{Requirement, Revision, SharedRange, system_revision};
use std::alloc::{AllocError, Global};

/// The system bundle as the host of a fragment.
fn host(alloc: Global) -> Result<Requirement, AllocError> {
    let namespace = text_of(alloc, "osgi.wiring.bundle")?;
    let name = text_of(alloc, "system.bundle")?;
    let equal = Shared::new(alloc, List::new(alloc)?)?;
    Ok(Requirement {
        namespace,
        name,
        range: SharedRange::at_least_zero(),
        from_name: None,
        from_range: SharedRange::at_least_zero(),
        equal,
        filter: None,
        optional: false,
        multiple: false,
        reexport: false,
        effective: true,
    })
}

/// The host of a bundle that is `fragment`, and none of any other.
fn host_of(alloc: Global, kind: &str) -> Result<Option<Requirement>, AllocError> {
    if kind == "fragment" {
        return Ok(Some(host(alloc)?));
    }
    Ok(None)
}

/// The file of a bundle that has the path `kind`; a fragment has none.
fn files_of(alloc: Global, kind: &str) -> Result<List<Text>, AllocError> {
    let mut files = List::new(alloc)?;
    if !kind.is_empty() && kind != "fragment" {
        files.push(text_of(alloc, kind)?)?;
    }
    Ok(files)
}

/// A revision of this name, in version 1.0.0: a fragment, or one with a file, or neither.
fn revision_named(alloc: Global, name: &str, kind: &str) -> Result<Revision, AllocError> {
    let name = text_of(alloc, name)?;
    let host = host_of(alloc, kind)?;
    let files = files_of(alloc, kind)?;
    let mut revision = system_revision(alloc)?;
    revision.name = name;
    revision.host = host;
    revision.files = files;
    Ok(revision)
}

/// The row of a location at which a bundle of the location's name was read.
fn row_at(alloc: Global, location: &str, kind: &str) -> Result<DepotRow, AllocError> {
    let revision = Shared::new(alloc, revision_named(alloc, location, kind)?)?;
    let stored = Stored::Read {
        revision,
        manifest: Text::empty(),
    };
    let location = text_of(alloc, location)?;
    Ok(DepotRow { location, stored })
}

/// A depot with a bundle at a location, which has a file or is a fragment where that stands after it; for no location an empty
/// one.
pub fn depot_of(alloc: Global, text: &str) -> Result<Depot, AllocError> {
    let (location, kind) = split_word(text);
    let mut rows = List::new(alloc)?;
    if !location.is_empty() {
        rows.push(row_at(alloc, location, kind)?)?;
    }
    Ok(Depot { rows })
}

/// No depot of rows has more bundles.
const MOST_BUNDLES: usize = 1_000;

/// The row of a location that is a number.
fn numbered_row(alloc: Global, number: u32) -> Result<DepotRow, AllocError> {
    let mut location = String::new(alloc);
    put_shown(&mut location, &number)?;
    row_at(alloc, location.as_str(), "")
}

/// The rows of the locations from 0 on, so many.
fn numbered_rows(alloc: Global, count: u32) -> Result<List<DepotRow>, AllocError> {
    let mut rows = List::new(alloc)?;
    for number in 0..count {
        rows.push(numbered_row(alloc, number)?)?;
    }
    Ok(rows)
}

/// A depot with so many bundles, at the locations `0`, `1` and so on, each of the name of its location.
pub fn numbered_depot(alloc: Global, count: u32) -> Result<Depot, AllocError> {
    let rows = numbered_rows(alloc, count)?;
    if rows.items().len() > MOST_BUNDLES {
        return Err(AllocError);
    }
    Ok(Depot { rows })
}
