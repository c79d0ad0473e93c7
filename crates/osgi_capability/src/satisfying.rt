//! Whether a capability satisfies a requirement, by its namespace.

ghost use Rattle.std.specs.Prelude.{◌≡◌, ◌↔◌, IsTrue};
ghost use Rattle.osgi_capability.specs.computed.Satisfied.{fits_filter, is_satisfied, meets};
ghost use Rattle.osgi_world.specs.Satisfaction.{Satisfies};

use crate::imports::fits_import;
use osgi_base::{Shared, Text};
use osgi_filter::{Case, matches};
use osgi_model::{Attributes, Filter};
use osgi_version::Version;
use osgi_world::{Capability, Requirement};

/// Whether the capability satisfies the requirement, for a provider of this symbolic name and version.
///
/// Namespaces and names have to be the same. A bundle satisfies one of its requirements by its version, an export an import by
/// its version, its exporter and its attributes, and any other capability by what the filter says of its attributes, whose
/// names are compared with case. A missing `version` is 0.0.0.
pub fn satisfies(
    requirement: &Requirement,
    capability: &Capability,
    name: &Text,
    version: &Version,
) -> bool
    ensures satisfies { IsTrue result ↔ Satisfies requirement.now capability.now name.now version.now }
{
    is_satisfied(requirement, capability, name, version)
}

fn is_satisfied(
    requirement: &Requirement,
    capability: &Capability,
    name: &Text,
    version: &Version,
) -> bool
    ensures satisfied { result ≡ is_satisfied requirement.now capability.now name.now version.now }
{
    requirement.namespace == capability.namespace
        && requirement.name == capability.name
        && meets(requirement, capability, name, version)
}

/// Whether a capability of the same namespace and name is such as the requirement asks for.
fn meets(requirement: &Requirement, capability: &Capability, name: &Text, version: &Version) -> bool
    ensures meets { result ≡ meets requirement.now capability.now name.now version.now }
{
    let namespace = requirement.namespace.bytes();
    if namespace == b"osgi.wiring.bundle".as_slice() {
        return requirement.range.contains(version);
    }
    if namespace == b"osgi.wiring.package".as_slice() {
        return fits_import(requirement, capability, name, version);
    }
    fits_filter(&requirement.filter, capability.attributes.get())
}

/// Whether the attributes are such as the filter, if there is one, asks for.
fn fits_filter(filter: &Option<Shared<Filter>>, attributes: &Attributes) -> bool
    ensures fits { result ≡ fits_filter filter.now attributes.now }
{
    match filter {
        Some(filter) => matches(filter.get(), attributes, Case::Keep),
        None => true,
    }
}
