//! What the system bundle says.

use crate::attributes::put_attributes;
use crate::values::put_version;
use cases_text::{put, put_shown, put_text};
use osgi_world::{Capability, Known, Revision, known_system};
use std::alloc::{AllocError, Global};

fn put_capability(
    alloc: Global,
    out: &mut String,
    capability: &Capability,
) -> Result<(), AllocError> {
    put(out, "|")?;
    put_text(out, &capability.namespace)?;
    put(out, " ")?;
    put_text(out, &capability.name)?;
    put(out, ": ")?;
    put_attributes(alloc, out, capability.attributes.get())
}

fn put_capabilities(
    alloc: Global,
    out: &mut String,
    capabilities: &[Capability],
) -> Result<(), AllocError> {
    for capability in capabilities {
        put_capability(alloc, out, capability)?;
    }
    Ok(())
}

fn put_needs(out: &mut String, revision: &Revision) -> Result<(), AllocError> {
    let needs = revision.requirements.items().len() + revision.dynamics.items().len();
    let is_host = revision.host.is_none() && revision.attach;
    put(out, ", needs ")?;
    put_shown(out, &needs)?;
    put(out, ", takes fragments ")?;
    put_shown(out, &is_host)
}

fn put_revision(alloc: Global, out: &mut String, revision: &Revision) -> Result<(), AllocError> {
    put_text(out, &revision.name)?;
    put(out, " ")?;
    put_version(alloc, out, &revision.version)?;
    put_needs(out, revision)?;
    put_capabilities(alloc, out, revision.capabilities.items())
}

fn put_known(alloc: Global, out: &mut String, known: &Known) -> Result<(), AllocError> {
    put(out, "bundle ")?;
    put_shown(out, &known.bundle.0)?;
    put(out, ", revision ")?;
    put_shown(out, &known.id.0)?;
    put(out, ", ")?;
    put_revision(alloc, out, known.revision.get())
}

/// The ids and the revision of the system bundle, with its capabilities.
pub fn system(alloc: Global, out: &mut String) -> Result<(), AllocError> {
    put_known(alloc, out, &known_system(alloc)?)
}
