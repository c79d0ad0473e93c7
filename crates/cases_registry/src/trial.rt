//! A registry beside the entries that its calls leave.

ghost use Rattle.std.specs.Prelude.{◌≡◌, ◌+◌, ◌-◌, ◌^◌, ◌<◌, ◌≤◌};

use crate::assignable::Assignable;
use crate::calls::reply_to;
use crate::checked::{add_found, add_ids, add_live};
use crate::scanned::{TAG, add_release, add_uses};
use crate::states::leave;
use cases_operations::{add_checked, entry_of};
use cases_text::{are_equal, put, put_shown};
use osgi_base::{BundleId, ServiceId};
use osgi_model::Attributes;
use osgi_ops::{Entry, Op, Service};
use osgi_registry::Registry;
use std::alloc::{AllocError, Global};

/// A registry, and the entries that its calls leave.
#[derive(Drop)]
pub struct Trial {
    alloc: Global,
    registry: Registry,
    entries: Vec<Entry>,
    /// How many calls are left.
    left: u32,
    ghost ids_left: { registry.issued + left ≤ 2 ^ 32 - 1 },
}

impl Trial {
    pub fn new(alloc: Global) -> Result<Trial, AllocError> {
        Ok(Trial {
            alloc,
            registry: Registry::new(alloc)?,
            entries: Vec::new(alloc),
            left: u32::MAX,
        })
    }

    /// Adds what the registry answers to an operation.
    pub fn ask(
        &mut self,
        out: &mut String,
        op: &Op,
        assignable: Assignable<'_>,
    ) -> Result<(), AllocError> {
        let Some(left) = self.left.checked_sub(1) else {
            return put(out, "no calls left");
        };
        self.left = left;
        ask(
            self.alloc,
            out,
            &mut self.registry,
            &mut self.entries,
            op,
            assignable,
        )
    }

    pub fn release(&mut self, out: &mut String, bundle: BundleId) -> Result<(), AllocError> {
        release(out, &mut self.registry, &mut self.entries, bundle)
    }

    /// Leaves the entry after which the word says what became of the bundle. The registry is not asked.
    pub fn leave(
        &mut self,
        out: &mut String,
        word: &str,
        bundle: BundleId,
    ) -> Result<(), AllocError> {
        leave(self.alloc, out, &mut self.entries, word, bundle)
    }

    /// Adds the state of the bundle by OSGi's number, as plain scans read it off the entries.
    pub fn state(&self, out: &mut String, bundle: BundleId) -> Result<(), AllocError> {
        put_shown(out, &osgi_history::state(self.entries.as_slice(), bundle))
    }

    pub fn count(&self, out: &mut String) -> Result<(), AllocError> {
        put_shown(out, &self.registry.count())
    }

    /// Adds whether a service is as an operation that modifies it would make it.
    pub fn has(&self, out: &mut String, op: &Op) -> Result<(), AllocError> {
        match op {
            Op::Modify {
                owner,
                service,
                properties,
            } => has(
                self.alloc,
                out,
                &self.registry,
                *owner,
                *service,
                properties,
            ),
            _ => put(out, "nothing"),
        }
    }

    /// Adds the live services, their uses, and the services of each class.
    pub fn check(&mut self, out: &mut String) -> Result<(), AllocError> {
        check(self.alloc, out, &mut self.registry, self.entries.as_slice())
    }
}

/// Adds the last entry.
fn add_last(alloc: Global, out: &mut String, entries: &[Entry]) -> Result<(), AllocError> {
    match entries {
        [.., last] => add_checked(alloc, out, last),
        [] => Ok(()),
    }
}

/// Does an operation, keeps its entry, and adds it.
fn ask(
    alloc: Global,
    out: &mut String,
    registry: &mut Registry,
    entries: &mut Vec<Entry>,
    op: &Op,
    assignable: Assignable<'_>,
) -> Result<(), AllocError>
    requires { registry.old.issued < u32.MAX }
    ensures issued { registry.new.issued ≤ registry.old.issued + 1 }
{
    let reply = reply_to(alloc, registry, op, assignable);
    entries.push(entry_of(TAG, op.copy(alloc), reply)?)?;
    add_last(alloc, out, entries.as_slice())
}

/// Releases a bundle. Its entry is the end of a stop of the bundle.
fn release(
    out: &mut String,
    registry: &mut Registry,
    entries: &mut Vec<Entry>,
    bundle: BundleId,
) -> Result<(), AllocError>
    ensures issued { registry.new.issued ≡ registry.old.issued }
{
    let services = registry.release(bundle)?;
    add_release(entries, bundle)?;
    add_ids(out, services.items())
}

/// Adds the live services, their uses, and the services of each class.
fn check(
    alloc: Global,
    out: &mut String,
    registry: &mut Registry,
    entries: &[Entry],
) -> Result<(), AllocError>
    ensures issued { registry.new.issued ≡ registry.old.issued }
{
    add_live(alloc, out, registry, entries)?;
    add_uses(out, registry, entries)?;
    add_found(alloc, out, registry)
}

/// The row of a service, if it is live.
fn live(registry: &Registry, service: ServiceId) -> Option<&Service> {
    for row in registry.services() {
        if row.service == service {
            return Some(row);
        }
    }
    None
}

/// Adds whether the bundle owns a service, and just these are its properties, by its copy.
fn add_has(
    alloc: Global,
    out: &mut String,
    service: &Service,
    owner: BundleId,
    properties: &Attributes,
) -> Result<(), AllocError> {
    let copy = service.copy(alloc)?;
    let has = copy.owner == owner && are_equal(&copy.properties, properties);
    put(out, if has { "yes" } else { "no" })
}

/// Adds the same of the service of this id, if it is live.
fn has(
    alloc: Global,
    out: &mut String,
    registry: &Registry,
    owner: BundleId,
    service: ServiceId,
    properties: &Attributes,
) -> Result<(), AllocError> {
    match live(registry, service) {
        Some(service) => add_has(alloc, out, service, owner, properties),
        None => put(out, "none"),
    }
}
