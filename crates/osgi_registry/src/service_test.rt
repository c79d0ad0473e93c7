//! Tests of services, and the first service that passes one.

ghost use Rattle.std.specs.Prelude.{Bool, IfOk, OnOk};
ghost use Rattle.std.specs.List.Sorted.{IsStrictlySortedBy};
ghost use Rattle.osgi_ops.specs.declared.service.Service as declared;
ghost use Rattle.osgi_registry.specs.computed.Finding as spec;
ghost use Rattle.osgi_registry_index.specs.Places.{place_cmp};
ghost use Rattle.osgi_registry.specs.computed.LiveSlots.{AreCurrent, services_at};
ghost use Rattle.osgi_registry_index.specs.Slots.{slots_in};

use crate::live::Live;
use osgi_base::ServiceId;
use osgi_ops::Service;
use osgi_registry_index::Place;
use std::collections::BTreeSet;

/// A test of services, which may fail.
pub trait ServiceTest {
    type Error: Drop;

    /// Whether it may be asked.
    ghost can_ask: { Self → Type 0 };

    /// What it may answer of a service.
    ghost answers: { Self → declared.Service → Bool → Type 0 };

    fn passes(&self, service: &Service) -> Result<bool, Self::Error>
        requires can { can_ask self.now }
        ensures answer { IfOk result (answers self.now service.now) };
}

/// The first of the services at these places that passes the test.
pub fn first_passing<T: ServiceTest>(
    live: Live<'_>,
    places: &BTreeSet<Place>,
    test: &T,
) -> Result<Option<ServiceId>, T::Error>
    requires current { AreCurrent (slots_in live.slots.now) live.rows.now.entries }
    requires can { T.can_ask test.now }
    ensures first { IfOk result
        (spec.IsFirstFound (T.answers test.now)
        (services_at live.entry.rows.now.entries places.now.keys)) }
    ensures ordered { OnOk result (IsStrictlySortedBy place_cmp places.now.keys) }
{
    for place in places {
        let Some(service) = live.service(place.service()) else {
            continue;
        };
        if test.passes(service)? {
            return Ok(Some(service.service));
        }
    }
    Ok(None)
}
