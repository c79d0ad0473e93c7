//! What a check says of the services that are live and of those of each class.

use cases_text::{are_equal, complain, put, put_shown, text_of};
use osgi_base::{List, ServiceId};
use osgi_ops::Entry;
use osgi_registry::Registry;
use std::alloc::{AllocError, Global};

/// The classes that a check looks for.
const CLASSES: [&str; 3] = ["a.A", "a.B", "b.C"];

/// Adds ids.
pub fn add_ids(out: &mut String, ids: &[ServiceId]) -> Result<(), AllocError> {
    if ids.is_empty() {
        return put(out, "none");
    }
    let mut separator = "";
    for id in ids {
        put(out, separator)?;
        put_shown(out, &id.0)?;
        separator = " ";
    }
    Ok(())
}

/// The ids of the live services, by their places.
fn live_ids(alloc: Global, registry: &Registry) -> Result<List<ServiceId>, AllocError> {
    let mut ids = List::new(alloc)?;
    for place in 0..registry.count() {
        ids.push(registry.at(place).service)?;
    }
    Ok(ids)
}

/// Adds services, which have to be those that scans find.
fn add_compared(
    alloc: Global,
    out: &mut String,
    ids: &List<ServiceId>,
    entries: &[Entry],
) -> Result<(), AllocError> {
    add_ids(out, ids.items())?;
    let scanned = osgi_history::live(alloc, entries)?;
    complain(out, are_equal(&scanned, ids), ", scans find others")
}

/// Adds the live services, which have to be those that scans find.
pub fn add_live(
    alloc: Global,
    out: &mut String,
    registry: &Registry,
    entries: &[Entry],
) -> Result<(), AllocError> {
    let ids = live_ids(alloc, registry)?;
    add_compared(alloc, out, &ids, entries)
}

/// All services of a class.
fn found(alloc: Global, registry: &Registry, class: &str) -> Result<List<ServiceId>, AllocError> {
    let class = text_of(alloc, class)?;
    registry.find_all(&class, None)
}

/// Adds the services of a class.
fn add_class(
    alloc: Global,
    out: &mut String,
    registry: &Registry,
    class: &str,
) -> Result<(), AllocError> {
    put(out, " | ")?;
    put(out, class)?;
    put(out, " ")?;
    add_ids(out, found(alloc, registry, class)?.items())
}

/// Adds the services of each class.
pub fn add_found(alloc: Global, out: &mut String, registry: &Registry) -> Result<(), AllocError> {
    for class in CLASSES {
        add_class(alloc, out, registry, class)?;
    }
    Ok(())
}
