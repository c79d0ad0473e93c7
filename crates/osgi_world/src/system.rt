//! The system bundle: the framework as a bundle of its own.

ghost use Rattle.std.specs.Prelude.{◌≡◌, IfOk};
ghost use Rattle.osgi_world.specs.System.{framework_package, java_environment, java_versions, known_system, plain_capability, system_bundle, system_capabilities, system_revision};

use crate::capability::Capability;
use crate::revision::Revision;
use crate::world::Known;
use osgi_base::{BundleId, List, RevisionId, Shared, Text};
use osgi_model::{Attribute, Attributes, Value};
use osgi_version::Version;
use std::alloc::{AllocError, Global};

/// The system bundle as it is known from the start: bundle 0, by its only revision.
pub fn known_system(alloc: Global) -> Result<Known, AllocError>
    ensures same { IfOk result (λ known. known ≡ known_system) }
{
    Ok(Known {
        id: RevisionId(0),
        bundle: BundleId(0),
        current: true,
        revision: Shared::new(alloc, system_revision(alloc)?)?,
    })
}

/// The revision of the system bundle. It offers the framework's package and the Java that bundles are written for, takes no
/// fragments and needs nothing.
pub fn system_revision(alloc: Global) -> Result<Revision, AllocError>
    ensures same { IfOk result (λ revision. revision ≡ system_revision) }
{
    let name = Text::of(alloc, b"system.bundle")?;
    let version = Version::numbered(1, 0, 0);
    let capabilities = capabilities(alloc)?;
    Ok(Revision {
        name,
        version,
        singleton: false,
        attach: false,
        host: None,
        activator: None,
        capabilities,
        requirements: List::from(Vec::new(alloc)),
        dynamics: List::from(Vec::new(alloc)),
        lazy: None,
        files: List::from(Vec::new(alloc)),
    })
}

fn capabilities(alloc: Global) -> Result<List<Capability>, AllocError>
    ensures same { IfOk result (λ capabilities. capabilities ≡ system_capabilities) }
{
    let mut capabilities = List::with_capacity(alloc, 3)?;
    capabilities.push(system_bundle(alloc)?)?;
    capabilities.push(framework_package(alloc)?)?;
    capabilities.push(java_environment(alloc)?)?;
    Ok(capabilities)
}

fn system_bundle(alloc: Global) -> Result<Capability, AllocError>
    ensures same { IfOk result (λ capability. capability ≡ system_bundle) }
{
    let attributes = List::from(Vec::new(alloc));
    plain_capability(alloc, b"osgi.wiring.bundle", b"system.bundle", attributes)
}

fn framework_package(alloc: Global) -> Result<Capability, AllocError>
    ensures same { IfOk result (λ capability. capability ≡ framework_package) }
{
    let version = Value::Version(Version::numbered(1, 10, 0));
    let mut attributes = List::with_capacity(alloc, 1)?;
    attributes.push(attribute(alloc, b"version", version)?)?;
    plain_capability(
        alloc,
        b"osgi.wiring.package",
        b"org.osgi.framework",
        attributes,
    )
}

fn java_environment(alloc: Global) -> Result<Capability, AllocError>
    ensures same { IfOk result (λ capability. capability ≡ java_environment) }
{
    let java = Value::Text(Text::of(alloc, b"JavaSE")?);
    let mut attributes = List::with_capacity(alloc, 2)?;
    attributes.push(attribute(alloc, b"osgi.ee", java)?)?;
    attributes.push(attribute(alloc, b"version", java_versions(alloc)?)?)?;
    plain_capability(alloc, b"osgi.ee", b"osgi.ee", attributes)
}

fn java_versions(alloc: Global) -> Result<Value, AllocError>
    ensures same { IfOk result (λ value. value ≡ java_versions) }
{
    let mut versions = List::with_capacity(alloc, 3)?;
    versions.push(Value::Version(Version::numbered(1, 8, 0)))?;
    versions.push(Value::Version(Version::numbered(11, 0, 0)))?;
    versions.push(Value::Version(Version::numbered(17, 0, 0)))?;
    Ok(Value::List(versions))
}

fn attribute(alloc: Global, name: &[u8], value: Value) -> Result<Attribute, AllocError>
    ensures name { IfOk result (λ attribute. attribute.name ≡ name.now) }
    ensures value { IfOk result (λ attribute. attribute.value ≡ value) }
{
    Ok(Attribute {
        name: Text::of(alloc, name)?,
        value,
    })
}

/// A capability that names no packages and asks for no attributes.
fn plain_capability(
    alloc: Global,
    namespace: &[u8],
    name: &[u8],
    attributes: Attributes,
) -> Result<Capability, AllocError>
    ensures same { IfOk result (λ capability. capability ≡ plain_capability namespace.now name.now attributes) }
{
    Ok(Capability {
        namespace: Text::of(alloc, namespace)?,
        name: Text::of(alloc, name)?,
        attributes: Shared::new(alloc, attributes)?,
        uses: Shared::new(alloc, List::new(alloc)?)?,
        mandatory: Shared::new(alloc, List::new(alloc)?)?,
    })
}
