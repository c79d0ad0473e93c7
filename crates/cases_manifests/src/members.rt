//! Requirements and capabilities of any namespace.

use crate::packages::{push_capability, push_requirement};
use cases_text::push_bytes;
use osgi_base::Shared;
use osgi_filter::print;
use osgi_model::Filter;
use osgi_world::{Capability, Requirement};
use std::alloc::{AllocError, Global};

/// Adds what only some requirements are.
fn push_flags(out: &mut String, requirement: &Requirement) -> Result<(), AllocError> {
    if requirement.multiple {
        out.push_str(" multiple")?;
    }
    if requirement.reexport {
        out.push_str(" reexport")?;
    }
    if !requirement.effective {
        out.push_str(" ineffective")?;
    }
    Ok(())
}

fn push_filter(
    alloc: Global,
    out: &mut String,
    filter: &Option<Shared<Filter>>,
) -> Result<(), AllocError> {
    let Some(filter) = filter else {
        return Ok(());
    };
    out.push_str(" filter ")?;
    push_bytes(out, print(alloc, filter.get())?.bytes())
}

/// Adds a requirement: its namespace, what every requirement says, what it is besides, and its filter.
pub fn push_any_requirement(
    alloc: Global,
    out: &mut String,
    requirement: &Requirement,
) -> Result<(), AllocError> {
    push_bytes(out, requirement.namespace.bytes())?;
    out.push(' ')?;
    push_requirement(alloc, out, requirement)?;
    push_flags(out, requirement)?;
    push_filter(alloc, out, &requirement.filter)?;
    out.push(';')
}

/// Adds requirements one after another.
pub fn push_any_requirements(
    alloc: Global,
    out: &mut String,
    requirements: &[Requirement],
) -> Result<(), AllocError> {
    if requirements.is_empty() {
        out.push_str("none")?;
    }
    for requirement in requirements {
        push_any_requirement(alloc, out, requirement)?;
    }
    Ok(())
}

/// Adds a capability: its namespace, and what every capability says.
fn push_any_capability(
    alloc: Global,
    out: &mut String,
    capability: &Capability,
) -> Result<(), AllocError> {
    push_bytes(out, capability.namespace.bytes())?;
    out.push(' ')?;
    push_capability(alloc, out, capability)?;
    out.push(';')
}

/// Adds capabilities one after another.
pub fn push_any_capabilities(
    alloc: Global,
    out: &mut String,
    capabilities: &[Capability],
) -> Result<(), AllocError> {
    if capabilities.is_empty() {
        out.push_str("none")?;
    }
    for capability in capabilities {
        push_any_capability(alloc, out, capability)?;
    }
    Ok(())
}
