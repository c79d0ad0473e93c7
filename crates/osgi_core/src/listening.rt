//! What a listener sees in a history, found by making its calls again: simple and slow, for comparison with the listeners.

ghost use Rattle.std.specs.Prelude.{◌≡◌, List, ◌++◌, IfOk, map};
ghost use Rattle.osgi_listeners.specs.Sights.{sights_by, sights_of};
ghost use Rattle.osgi_legal.specs.Legal.{AreAllowed, Legal};
ghost use Rattle.osgi_ops.specs.Listening.{due};
ghost use Rattle.osgi_ops.specs.Moments.{entries_in, Sight, Told};
ghost use Rattle.osgi_ops.specs.Settings.{setting_of};

use crate::machine::Core;
use osgi_base::{List, ListenerId};
use osgi_listeners::Sight;
use osgi_ops::{Depot, Entry, Event, Limits};
use std::alloc::{AllocError, Global};

/// Puts the events that the listener sees of one entry behind those of the earlier ones.
fn add_seen(
    events: &mut List<Event>,
    sights: &[Sight],
    listener: ListenerId,
) -> Result<(), AllocError>
    ensures added { IfOk result (λ done.
        events.new ≡ events.old ++ map (λ s. s.event) (sights_by listener (sights_of sights.now))) }
{
    for sight in sights {
        if sight.listener == listener {
            events.push(sight.event)?;
        }
    }
    Ok(())
}

/// The events that the listener sees in the history, in order.
pub fn due(
    alloc: Global,
    limits: Limits,
    depot: Depot,
    entries: &[Entry],
    listener: ListenerId,
) -> Result<List<Event>, AllocError>
    requires legal { Legal (setting_of limits depot) entries.now }
    ensures due { IfOk result (λ events.
        (told : List Told)
        → entries_in told ≡ entries.now
        → AreAllowed (setting_of limits depot) told
        → events ≡ due listener told) }
{
    let mut machine = Core::new(alloc, limits, depot)?;
    let mut events = List::new(alloc)?;
    for entry in entries {
        let (_reply, sights) = machine.told(entry.tag, entry.op.copy(alloc)?)?;
        add_seen(&mut events, &sights, listener)?;
    }
    Ok(events)
}
