//! Ids, one after another.

ghost use Rattle.std.specs.Prelude.{◌≡◌, ◌++◌, OnOk};
ghost use Rattle.osgi_session.specs.Rendering.{bundles_text, services_text};

use crate::writing::add_spaced_number;
use osgi_base::{BundleId, ServiceId};
use std::alloc::AllocError;

/// Adds ids of services, each after a space.
pub fn add_service_ids(out: &mut Vec<u8>, ids: &[ServiceId]) -> Result<(), AllocError>
    ensures added { OnOk result (out.new.items ≡ out.old.items ++ services_text ids.now) }
{
    if ids.is_empty() {
        return out.extend_from_slice(b" none");
    }
    for id in ids {
        add_spaced_number(out, id.0)?;
    }
    Ok(())
}

/// Adds ids of bundles, each after a space.
pub fn add_bundle_ids(out: &mut Vec<u8>, ids: &[BundleId]) -> Result<(), AllocError>
    ensures added { OnOk result (out.new.items ≡ out.old.items ++ bundles_text ids.now) }
{
    if ids.is_empty() {
        return out.extend_from_slice(b" none");
    }
    for id in ids {
        add_spaced_number(out, u64::from(id.0))?;
    }
    Ok(())
}
