//! Revisions become known.

use osgi_base::List;
use osgi_resolver::IndexedWirings;
use osgi_world::{Known, known_system};
use std::alloc::{AllocError, Global};

/// The framework alone.
pub fn first_wirings(alloc: Global) -> Result<IndexedWirings, AllocError> {
    IndexedWirings::new(alloc, known_system(alloc)?.revision)
}

/// Makes a revision known, unless it has another id than the next or its bundle has a revision already.
pub fn add(wirings: &mut IndexedWirings, known: Known) -> Result<bool, AllocError> {
    let now = wirings.wirings();
    let issued = now.issued();
    if issued == u32::MAX || known.id.0 != issued + 1 || now.current(known.bundle).is_some() {
        return Ok(false);
    }
    wirings.reserve()?;
    wirings.add(known.bundle, known.revision)?;
    Ok(true)
}

/// Makes revisions known, one after another, until one cannot be known; whether all of them are.
pub fn add_all(wirings: &mut IndexedWirings, revisions: List<Known>) -> Result<bool, AllocError> {
    for known in revisions.into_items() {
        if !add(wirings, known)? {
            return Ok(false);
        }
    }
    Ok(true)
}
