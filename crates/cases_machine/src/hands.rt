//! What the console does not write of hands, and what was handed.

use crate::depot::depot_of;
use cases_text::{put, put_debug, put_shown, put_text};
use osgi_base::{BundleId, ListenerId, Text};
use osgi_core::{Core, due};
use osgi_history::handed;
use osgi_ops::{Busy, Event, Kind, Limits};
use std::alloc::{AllocError, Global};
use std::mem;

/// Adds the listener's name, kind and owner, and the depot's row of the owner, whose script has the section that is to run.
pub fn add_section(
    out: &mut String,
    name: &Text,
    kind: Kind,
    owner: BundleId,
    row: u32,
) -> Result<(), AllocError> {
    put(out, ", on ")?;
    put_text(out, name)?;
    put(out, " ")?;
    put_debug(out, &kind)?;
    put(out, " of ")?;
    put_shown(out, &owner.0)?;
    put(out, ", row ")?;
    put_shown(out, &row)
}

/// Adds a busy listener, and the tag of its hand.
fn add_turn(out: &mut String, busy: Busy) -> Result<(), AllocError> {
    put(out, ", ")?;
    put_shown(out, &busy.listener.0)?;
    put(out, " by ")?;
    put_shown(out, &busy.tag.caller)?;
    put(out, ".")?;
    put_shown(out, &busy.tag.command)
}

/// Adds that nothing is handed, and the listeners that are busy.
pub fn add_nothing(out: &mut String, busy: &[Busy]) -> Result<(), AllocError> {
    put(out, "nothing")?;
    for turn in busy {
        add_turn(out, *turn)?;
    }
    Ok(())
}

/// Adds what an event is about, its code, and the id of that.
fn add_words(out: &mut String, about: &str, code: u16, id: Option<u64>) -> Result<(), AllocError> {
    put(out, about)?;
    put_shown(out, &code)?;
    match id {
        Some(id) => {
            put(out, " ")?;
            put_shown(out, &id)
        }
        None => Ok(()),
    }
}

fn add_event(out: &mut String, event: Event) -> Result<(), AllocError> {
    match event {
        Event::Service { code, service } => {
            add_words(out, "service ", u16::from(code), Some(service.0))
        }
        Event::Bundle { code, bundle } => {
            add_words(out, "bundle ", code, Some(u64::from(bundle.0)))
        }
        Event::Framework { code } => add_words(out, "framework ", u16::from(code), None),
    }
}

/// Adds events, one after another.
fn add_events(out: &mut String, events: &[Event]) -> Result<(), AllocError> {
    if events.is_empty() {
        return put(out, "none");
    }
    let mut separator = "";
    for event in events {
        put(out, separator)?;
        add_event(out, *event)?;
        separator = "; ";
    }
    Ok(())
}

/// Adds the events that were handed to a listener, as a plain scan of the history finds them.
pub fn add_handed(
    alloc: Global,
    out: &mut String,
    core: &Core,
    listener: ListenerId,
) -> Result<(), AllocError> {
    let events = handed(alloc, core.entries(), listener)?;
    add_events(out, events.items())
}

/// Adds the events that the listener sees in the history, as the machine tells them when its calls are made again. The machine is a
/// new one then.
pub fn add_due(
    alloc: Global,
    out: &mut String,
    core: &mut Core,
    listener: ListenerId,
) -> Result<(), AllocError> {
    let limits = core.limits();
    let next = Core::new(alloc, Limits::standard(), depot_of(alloc, "")?)?;
    let (depot, entries) = mem::replace(core, next).into_parts();
    let events = due(alloc, limits, depot, entries.items(), listener)?;
    add_events(out, events.items())
}
