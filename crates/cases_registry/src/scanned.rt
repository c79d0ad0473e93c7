//! What plain scans say of the entries that the registry's calls leave, beside what the registry says.

ghost use Rattle.std.specs.Prelude.{◌≡◌};

use crate::uses::count;
use cases_text::{complain, put, put_shown};
use osgi_base::{BundleId, ServiceId, Tag};
use osgi_ops::{Entry, Op, Reply};
use osgi_registry::Registry;
use std::alloc::AllocError;

/// The tag of all calls of the registry.
pub const TAG: Tag = Tag {
    caller: 0,
    command: 0,
};

/// How many bundles a check asks about.
const BUNDLES: u32 = 3;

/// How many services were registered.
fn registered(entries: &[Entry]) -> u32 {
    let count = entries
        .iter()
        .filter(|entry| matches!(&entry.reply, Reply::Service { .. }))
        .count();
    u32::try_from(count).unwrap_or(0)
}

/// Adds the uses of a service by a bundle, if there are any.
fn put_uses(
    out: &mut String,
    user: BundleId,
    service: ServiceId,
    uses: u64,
) -> Result<(), AllocError> {
    if uses == 0 {
        return Ok(());
    }
    put(out, " ")?;
    put_shown(out, &service.0)?;
    put(out, ":")?;
    put_shown(out, &user.0)?;
    put(out, "*")?;
    put_shown(out, &uses)
}

/// Adds the uses of a service by a bundle, which have to be as many as scans count.
fn add_use(
    out: &mut String,
    registry: &mut Registry,
    entries: &[Entry],
    user: BundleId,
    service: ServiceId,
) -> Result<(), AllocError>
    ensures issued { registry.new.issued ≡ registry.old.issued }
{
    let uses = osgi_history::uses(entries, user, service);
    put_uses(out, user, service, uses)?;
    let is_same = count(registry, user, service)? == Some(uses);
    complain(out, is_same, ", the registry differs")
}

/// Adds the uses by the first bundles of all services, by service and then by bundle.
pub fn add_uses(
    out: &mut String,
    registry: &mut Registry,
    entries: &[Entry],
) -> Result<(), AllocError>
    ensures issued { registry.new.issued ≡ registry.old.issued }
{
    put(out, " | uses")?;
    for place in 0..registered(entries).saturating_mul(BUNDLES) {
        let (service, user) = (place / BUNDLES + 1, place % BUNDLES);
        add_use(
            out,
            registry,
            entries,
            BundleId(user),
            ServiceId(u64::from(service)),
        )?;
    }
    Ok(())
}

/// Adds the end of a stop of the bundle, whose clean up is what a release comes to.
pub fn add_release(entries: &mut Vec<Entry>, bundle: BundleId) -> Result<(), AllocError> {
    entries.push(Entry {
        tag: TAG,
        op: Op::EndStop {
            bundle,
            failed: false,
        },
        reply: Reply::Done,
    })?;
    Ok(())
}
