//! The live services by their ids.

ghost use Rattle.std.specs.Prelude.{◌≡◌, option_copied};
ghost use Rattle.osgi_registry.specs.computed.LiveSlots.{AreCurrent, service_in};
ghost use Rattle.osgi_registry_index.specs.Slots.{slots_in};

use crate::held::Held;
use osgi_base::ServiceId;
use osgi_ops::Service;
use osgi_registry_index::IdSlots;
use std::collections::BTreeMap;

/// The rows of the live services by their ids, and the services of many of them where they are found sooner.
#[derive(Clone, Copy)]
pub struct Live<'a> {
    pub slots: &'a IdSlots,
    pub rows: &'a BTreeMap<u64, Held>,
}

impl<'a> Live<'a> {
    /// The service of the id, if it is live.
    pub fn service(self, id: ServiceId) -> Option<&'a Service>
        requires current { AreCurrent (slots_in self.slots.now) self.rows.now.entries }
        ensures service { option_copied result ≡ service_in self.entry.rows.now.entries id.0 }
    {
        if let Some(service) = self.slots.get(id) {
            return Some(service);
        }
        let held = self.rows.get(&id.0)?;
        Some(held.service())
    }
}
