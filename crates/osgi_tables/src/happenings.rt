//! What happens as a change is made.

ghost use Rattle.std.specs.Prelude.{◌≡◌, ◌++◌, IfOk, OnOk};
ghost use Rattle.std.specs.Option.{option_map, option_to_list};
ghost use Rattle.osgi_sights.specs.Shown.{shown};
ghost use Rattle.osgi_tables.specs.Changes.{bundles_shown, happened, leaving, services_shown, shown_at};

use crate::change::Change;
use osgi_base::BundleId;
use osgi_bundle::Table;
use osgi_ops::{
    BUNDLE_INSTALLED, BUNDLE_RESOLVED, BUNDLE_STARTED, BUNDLE_STARTING, BUNDLE_STOPPED,
    BUNDLE_STOPPING, SERVICE_REGISTERED, SERVICE_UNREGISTERING,
};
use osgi_registry::Registry;
use osgi_reply_services::ServiceChange;
use osgi_sights::{Happened, Happening};
use std::alloc::{AllocError, Global};

/// What happens to a live bundle, with the name and version that its row shows.
fn of_bundle<'t>(code: u16, bundle: BundleId, bundles: &'t Table) -> Option<Happening<'t>>
    ensures shown { option_map shown result ≡ shown_at code bundles.now.rows bundle }
{
    let row = bundles.row(bundle)?;
    Some(Happening::Bundle {
        code,
        bundle,
        name: &row.name,
        version: &row.version,
    })
}

/// Adds what happens to each of the bundles.
fn add_bundles<'t>(
    code: u16,
    ids: &[BundleId],
    bundles: &'t Table,
    happened: &mut Happened<'t>,
) -> Result<(), AllocError>
    ensures added { OnOk result
        (happened.new ≡ happened.old ++ bundles_shown code ids.now bundles.now.rows) }
{
    for bundle in ids {
        if let Some(happening) = of_bundle(code, *bundle, bundles) {
            happened.push(happening)?;
        }
    }
    Ok(())
}

/// Adds that the services of a bundle go, by rising id.
fn add_leaving<'t>(
    bundle: BundleId,
    registry: &'t Registry,
    happened: &mut Happened<'t>,
) -> Result<(), AllocError>
    ensures added { OnOk result (happened.new ≡ happened.old ++ leaving bundle registry.now) }
{
    let services = registry.owned(bundle)?;
    for service in services.as_slice() {
        happened.push(Happening::Service {
            code: SERVICE_UNREGISTERING,
            service: *service,
        })?;
    }
    Ok(())
}

/// What happens to a service as a change of the registry is made.
fn of_service<'t>(change: &'t ServiceChange, registry: &'t Registry) -> Option<Happening<'t>>
    ensures shown { option_to_list (option_map shown result)
        ≡ services_shown change.now registry.now }
{
    match change {
        ServiceChange::Insert { service, .. } => Some(Happening::Service {
            code: SERVICE_REGISTERED,
            service,
        }),
        ServiceChange::Modify { service } => Some(Happening::Modified {
            old: registry.service(service.service)?,
            new: service,
        }),
        ServiceChange::Remove { service, .. } => Some(Happening::Service {
            code: SERVICE_UNREGISTERING,
            service: registry.service(*service)?,
        }),
        _ => None,
    }
}

/// What happens as the change is made, in order.
pub(crate) fn happenings<'t>(
    alloc: Global,
    registry: &'t Registry,
    bundles: &'t Table,
    change: &'t Change,
) -> Result<Happened<'t>, AllocError>
    ensures happened { IfOk result (λ list. list ≡ happened change.now registry.now bundles.now) }
{
    let mut happened = Happened::new(alloc);
    match change {
        Change::Nothing
        | Change::Listen { .. }
        | Change::Unlisten { .. }
        | Change::Hand { .. }
        | Change::Queue { .. }
        | Change::TakeJob { .. } => {}
        Change::Services { change } => {
            if let Some(happening) = of_service(change, registry) {
                happened.push(happening)?;
            }
        }
        Change::Install { made, .. } => happened.push(Happening::Bundle {
            code: BUNDLE_INSTALLED,
            bundle: made.bundle,
            name: &made.name,
            version: &made.version,
        })?,
        Change::Resolve { resolved, .. } => {
            add_bundles(BUNDLE_RESOLVED, resolved.items(), bundles, &mut happened)?;
        }
        Change::BeginStart { bundle, .. } => {
            add_bundles(BUNDLE_STARTING, &[*bundle], bundles, &mut happened)?;
        }
        Change::EndStart {
            bundle,
            failed: false,
            ..
        } => add_bundles(BUNDLE_STARTED, &[*bundle], bundles, &mut happened)?,
        Change::EndStart { bundle, .. } => {
            add_bundles(BUNDLE_STOPPING, &[*bundle], bundles, &mut happened)?;
            add_leaving(*bundle, registry, &mut happened)?;
            add_bundles(BUNDLE_STOPPED, &[*bundle], bundles, &mut happened)?;
        }
        Change::BeginStop { bundle, .. } => {
            add_bundles(BUNDLE_STOPPING, &[*bundle], bundles, &mut happened)?;
        }
        Change::EndStop { bundle, .. } => {
            add_leaving(*bundle, registry, &mut happened)?;
            add_bundles(BUNDLE_STOPPED, &[*bundle], bundles, &mut happened)?;
        }
    }
    Ok(happened)
}
