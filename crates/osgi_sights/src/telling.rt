//! What the listeners see of what happens at an entry.

ghost use Rattle.std.specs.Prelude.{◌<◌, ◌^◌, All, IfOk, OnOk};
ghost use Rattle.osgi_listeners.specs.Rows.{AreInOrder};
ghost use Rattle.osgi_listeners.specs.Sights.{sights_of};
ghost use Rattle.osgi_sights.specs.Shown.{shown};
ghost use Rattle.osgi_sights.specs.Sights.{AreSightsOf};
ghost use Rattle.osgi_sights.specs.computed.Telling.{AddsSights, TellsOf};

use crate::askers::askers;
use crate::happened::Happened;
use crate::happening::Happening;
use crate::onlookers::Onlookers;
use osgi_base::BundleId;
use osgi_listeners::{Listeners, Sight};
use osgi_wiring::Wirings;
use std::alloc::{AllocError, Global};

/// Adds what is seen of the happening at this place, by rising listener.
fn tell(
    onlookers: &Onlookers<'_>,
    place: u32,
    happening: &Happening<'_>,
    told: &mut Vec<Sight>,
) -> Result<(), AllocError>
    ensures told { OnOk result
        (AddsSights
        (TellsOf onlookers.now.listeners.now onlookers.now.removed
        onlookers.now.wirings.now.world (shown happening.now) place)
        (sights_of told.old.items) (sights_of told.new.items)) }
    ensures in_order { AreInOrder onlookers.now.listeners.now }
{
    let mut made = None;
    for listener in askers(onlookers.listeners, happening) {
        let Some(event) = onlookers.seen_by(listener, happening, &mut made)? else {
            continue;
        };
        told.push(Sight {
            listener,
            place,
            event,
        })?;
    }
    Ok(())
}

/// Which listeners see what happens at an entry, as which event: by rising place of the happening, and of one happening by rising
/// listener. The listeners of the bundle that the entry cleans see nothing. Services are assignable by these wirings.
pub fn sights(
    alloc: Global,
    listeners: &Listeners,
    wirings: &Wirings,
    happened: &Happened<'_>,
    removed: Option<BundleId>,
) -> Result<Vec<Sight>, AllocError>
    ensures sights { IfOk result (λ told.
        AreSightsOf listeners.now removed wirings.now.world happened.now (sights_of told.items)) }
    ensures small { IfOk result (λ told. All (λ s. s.place < 2 ^ 32) (sights_of told.items)) }
{
    let onlookers = Onlookers {
        alloc,
        listeners,
        wirings,
        removed,
    };
    let items = happened.items();
    let mut told = Vec::new(alloc);
    for (place, happening) in items.iter().enumerate() {
        tell(&onlookers, place as u32, happening, &mut told)?;
    }
    Ok(told)
}
