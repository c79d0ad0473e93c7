//! Imported and exported packages.

use crate::shown::{push_attributes, push_texts};
use cases_text::push_bytes;
use osgi_base::List;
use osgi_header::{Clause, clauses};
use osgi_package::{PackageFault, exports, imports};
use osgi_world::{Capability, Requirement};
use std::alloc::{AllocError, Global};
use std::fmt::Write;

/// The most clauses whose packages are read.
const MAX_CLAUSES: usize = 1_000_000;

/// The clauses of a value; none where it is outside their grammar.
fn clauses_of(alloc: Global, value: &[u8]) -> Result<Option<List<Clause>>, AllocError> {
    Ok(clauses(alloc, value)?.ok())
}

fn push_exporter(
    alloc: Global,
    out: &mut String,
    requirement: &Requirement,
) -> Result<(), AllocError> {
    match &requirement.from_name {
        Some(name) => push_bytes(out, name.bytes())?,
        None => out.push('-')?,
    }
    out.push(' ')?;
    push_bytes(out, requirement.from_range.print(alloc)?.as_slice())
}

/// Adds a requirement without its namespace and without what only some of other namespaces say.
pub fn push_requirement(
    alloc: Global,
    out: &mut String,
    requirement: &Requirement,
) -> Result<(), AllocError> {
    push_bytes(out, requirement.name.bytes())?;
    out.push(' ')?;
    push_bytes(out, requirement.range.print(alloc)?.as_slice())?;
    out.push(' ')?;
    push_exporter(alloc, out, requirement)?;
    out.push(' ')?;
    push_attributes(alloc, out, requirement.equal.get().items())?;
    out.push_str(if requirement.optional {
        " optional"
    } else {
        " mandatory"
    })
}

/// Adds a capability without its namespace.
pub fn push_capability(
    alloc: Global,
    out: &mut String,
    capability: &Capability,
) -> Result<(), AllocError> {
    push_bytes(out, capability.name.bytes())?;
    out.push(' ')?;
    push_attributes(alloc, out, capability.attributes.get().items())?;
    out.push_str(" uses ")?;
    push_texts(out, capability.uses.get().items())?;
    out.push_str(" mandatory ")?;
    push_texts(out, capability.mandatory.get().items())
}

fn push_fault(out: &mut String, fault: PackageFault) -> Result<(), AllocError> {
    let PackageFault { kind, clause } = fault;
    write!(out, "{kind:?} in clause {clause}")
}

fn push_requirements(
    alloc: Global,
    out: &mut String,
    requirements: &[Requirement],
) -> Result<(), AllocError> {
    if requirements.is_empty() {
        out.push_str("none")?;
    }
    for requirement in requirements {
        push_requirement(alloc, out, requirement)?;
        out.push(';')?;
    }
    Ok(())
}

fn push_capabilities(
    alloc: Global,
    out: &mut String,
    capabilities: &[Capability],
) -> Result<(), AllocError> {
    if capabilities.is_empty() {
        out.push_str("none")?;
    }
    for capability in capabilities {
        push_capability(alloc, out, capability)?;
        out.push(';')?;
    }
    Ok(())
}

/// What a value of Import-Package means.
pub fn imported(alloc: Global, out: &mut String, value: &[u8]) -> Result<(), AllocError> {
    let Some(clauses) = clauses_of(alloc, value)? else {
        return out.push_str("no clauses");
    };
    if clauses.items().len() > MAX_CLAUSES {
        return out.push_str("too many");
    }
    match imports(alloc, &clauses)? {
        Ok(requirements) => push_requirements(alloc, out, requirements.items()),
        Err(fault) => push_fault(out, fault),
    }
}

/// What a value of Export-Package means.
pub fn exported(alloc: Global, out: &mut String, value: &[u8]) -> Result<(), AllocError> {
    let Some(clauses) = clauses_of(alloc, value)? else {
        return out.push_str("no clauses");
    };
    if clauses.items().len() > MAX_CLAUSES {
        return out.push_str("too many");
    }
    match exports(alloc, &clauses)? {
        Ok(capabilities) => push_capabilities(alloc, out, capabilities.items()),
        Err(fault) => push_fault(out, fault),
    }
}
