//! Services in slots by their ids.

ghost use Rattle.std.specs.Prelude.{◌≡◌, ℕ, ◌<◌, ◌%◌, length, None, OnOk, option_copied};

use osgi_base::{ServiceId, Shared};
use osgi_ops::Service;
use std::alloc::{AllocError, Global};

/// How many slots there are at most.
pub const SLOTS: u64 = 65_536;

/// Services, each in the slot that its id gives. A slot has the service that came last of those whose ids give it, so not every
/// service that came is there; one that is there is found in the same time however many there are.
#[derive(Drop)]
pub struct IdSlots {
    slots: Vec<Option<Shared<Service>>>,
}

impl IdSlots {
    ghost use Rattle.osgi_registry_index.specs.Slots.{Forgets, kept_at, KeepsSame, PutsAtMost, slots_in};

    pub fn new(alloc: Global) -> IdSlots
        ensures empty { (id : ℕ) → kept_at (slots_in result) id ≡ None }
    {
        IdSlots {
            slots: Vec::new(alloc),
        }
    }

    /// The service of the id, if it is there.
    pub fn get(&self, id: ServiceId) -> Option<&Service>
        ensures kept { option_copied result ≡ kept_at (slots_in self.now) id.0 }
    {
        let service = self.slots.get(slot_of(id))?.as_ref()?.get();
        if service.service.0 != id.0 {
            return None;
        }
        Some(service)
    }

    /// Puts the service into its slot. If memory runs out, it is not there.
    pub fn put(&mut self, service: Shared<Service>)
        ensures put { PutsAtMost (slots_in self.old) (slots_in self.new) service }
    {
        let slot = slot_of(service.get().service);
        if self.reach(slot).is_err() {
            return;
        }
        self.slots[slot] = Some(service);
    }

    /// Makes the slot, and those before it, without services in them.
    fn reach(&mut self, slot: usize) -> Result<(), AllocError>
        ensures reached { OnOk result (slot < length (slots_in self.new)) }
        ensures same { KeepsSame (slots_in self.old) (slots_in self.new) }
    {
        while self.slots.len() <= slot {
            self.slots.push(None)?;
        }
        Ok(())
    }

    /// Empties the slot of the id.
    pub fn forget(&mut self, id: ServiceId)
        ensures forgotten { Forgets (slots_in self.old) (slots_in self.new) id.0 }
    {
        let slot = slot_of(id);
        if slot < self.slots.len() {
            self.slots[slot] = None;
        }
    }
}

fn slot_of(id: ServiceId) -> usize
    ensures slot { result ≡ id.0 % SLOTS }
{
    (id.0 % SLOTS) as usize
}
