//! What a listener was handed, found by going over all entries. Simple and slow: tests compare the listeners with it.

ghost use Rattle.std.specs.Prelude.{◌≡◌, IfOk};
ghost use Rattle.std.specs.Option.{option_to_list};
ghost use Rattle.osgi_ops.specs.Listening.{handed_by, handed_in};

use osgi_base::{List, ListenerId};
use osgi_ops::{Entry, Event, Op, Reply};
use std::alloc::{AllocError, Global};

/// The event that the entry hands to the listener, if it hands it one.
fn handed_by(entry: &Entry, listener: ListenerId) -> Option<Event>
    ensures handed { option_to_list result ≡ handed_by listener entry.now.op entry.now.reply }
{
    match (&entry.op, &entry.reply) {
        (
            Op::Hand,
            Reply::Handed {
                listener: to,
                event,
                ..
            },
        ) if *to == listener => Some(*event),
        _ => None,
    }
}

/// The events that the entries hand to the listener, in order.
pub fn handed(
    alloc: Global,
    entries: &[Entry],
    listener: ListenerId,
) -> Result<List<Event>, AllocError>
    ensures handed { IfOk result (λ events. events ≡ handed_in listener entries.now) }
{
    let mut events = List::new(alloc)?;
    for entry in entries {
        if let Some(event) = handed_by(entry, listener) {
            events.push(event)?;
        }
    }
    Ok(events)
}
