//! Replies as an answer shows them.

use crate::commands::put_classes;
use crate::escapes::{put_bytes, put_quoted};
use osgi_base::{BundleId, ServiceId};
use osgi_ops::{BundleRow, Busy, Reply, ServiceRow};
use std::alloc::{AllocError, Global};
use std::fmt::Write;

pub fn put_reply(alloc: Global, out: &mut String, reply: &Reply) -> Result<(), AllocError> {
    match reply {
        Reply::Service { service } => write!(out, "service {}", service.0),
        Reply::Done => out.push_str("done"),
        Reply::Best { service: None } => out.push_str("best none"),
        Reply::Best {
            service: Some(service),
        } => write!(out, "best {}", service.0),
        Reply::Services { services } => put_services(out, services.items()),
        Reply::Object { text } => {
            out.push_str("object ")?;
            put_quoted(out, text.bytes())
        }
        Reply::Flag { value } => write!(out, "flag {value}"),
        Reply::Bundle { bundle, known } => {
            let kind = if *known { "known" } else { "new" };
            write!(out, "bundle {} {kind}", bundle.0)
        }
        Reply::Resolved { added } => put_resolved(out, added.items()),
        Reply::Active { bundle } => write!(out, "active {}", bundle.0),
        Reply::Wires { rows, fragments } => write!(
            out,
            "{} wires {} fragments",
            rows.items().len(),
            fragments.items().len()
        ),
        Reply::Bundles { rows } => put_bundles(alloc, out, rows.items()),
        Reply::ServiceRows { rows } => put_rows(out, rows.items()),
        Reply::Listener { listener } => write!(out, "listener {}", listener.0),
        Reply::Handed { listener, .. } => write!(out, "handed {}", listener.0),
        Reply::Nothing { busy } => put_nothing(out, busy.items()),
        Reply::Job { owner, name, .. } => {
            write!(out, "job {} ", owner.0)?;
            put_bytes(out, name.bytes())
        }
        Reply::NoJob => out.push_str("nojob"),
        Reply::Refused { refusal } => write!(
            out,
            "refused {} {}",
            refusal.number(),
            refusal.name()
        ),
        _ => out.push_str("another"),
    }
}

/// Appends that nothing was handed, and the listeners that are busy.
fn put_nothing(out: &mut String, busy: &[Busy]) -> Result<(), AllocError> {
    out.push_str("nothing")?;
    for one in busy {
        write!(out, " {}", one.listener.0)?;
    }
    Ok(())
}

fn put_services(out: &mut String, services: &[ServiceId]) -> Result<(), AllocError> {
    out.push_str("services")?;
    for service in services {
        write!(out, " {}", service.0)?;
    }
    Ok(())
}

fn put_resolved(out: &mut String, bundles: &[BundleId]) -> Result<(), AllocError> {
    out.push_str("resolved")?;
    for bundle in bundles {
        write!(out, " {}", bundle.0)?;
    }
    Ok(())
}

fn put_bundle(alloc: Global, out: &mut String, row: &BundleRow) -> Result<(), AllocError> {
    write!(out, " ({} {} {} ", row.bundle.0, row.state, row.level)?;
    put_bytes(out, row.name.bytes())?;
    out.push(' ')?;
    put_bytes(out, row.version.print(alloc)?.as_slice())?;
    out.push(')')
}

fn put_bundles(alloc: Global, out: &mut String, rows: &[BundleRow]) -> Result<(), AllocError> {
    out.push_str("bundles")?;
    for row in rows {
        put_bundle(alloc, out, row)?;
    }
    Ok(())
}

fn put_row(out: &mut String, row: &ServiceRow) -> Result<(), AllocError> {
    write!(out, " ({} {} {} ", row.service.0, row.owner.0, row.ranking)?;
    put_classes(out, row.classes.items())?;
    out.push(' ')?;
    put_quoted(out, row.object.bytes())?;
    out.push(')')
}

fn put_rows(out: &mut String, rows: &[ServiceRow]) -> Result<(), AllocError> {
    out.push_str("rows")?;
    for row in rows {
        put_row(out, row)?;
    }
    Ok(())
}
