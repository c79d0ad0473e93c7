//! The packages that a bundle exports.

ghost use Rattle.std.specs.Prelude.{◌≡◌, ◌<◌, [], ◌∷◌, ◌++◌, List, length, codes, IfOk, OnOk, MatchResult, Ok, Err};
ghost use Rattle.std.specs.List.{list_any};
ghost use Rattle.osgi_header.specs.declared.clause.Clause.{Clause};
ghost use Rattle.osgi_model.specs.computed.VersionReader.{version_of};
ghost use Rattle.osgi_world.specs.declared.capability.Capability.{Capability};
ghost use Rattle.osgi_package.specs.declared.fault.PackageFault.{PackageFault};
ghost use Rattle.osgi_package.specs.Exports.{AreExports, IsExportFault, SaysExports, version_attribute};
ghost use Rattle.osgi_package.specs.Packages as package_spec;
ghost use Rattle.osgi_package.specs.Parameters as spec;
ghost use Rattle.osgi_package.specs.computed.Answers.{IsTheAnswer};
ghost use Rattle.osgi_package.specs.computed.ExportReader as computed;
ghost use Rattle.osgi_package.specs.computed.ExportReader.{capabilities_of, IsAdded, IsOffer, IsOfferOf};

use crate::attributes::attributes;
use crate::fault::{PackageFault, PackageKind};
use crate::parameters::{is_implicit, is_java, listed, version_text};
use osgi_base::{List, Shared, Text};
use osgi_header::{Clause, Typed};
use osgi_model::{Attribute, Attributes, Value};
use osgi_version::Version;
use osgi_world::Capability;
use std::alloc::{AllocError, Global};

/// The version of the clause's packages; none where its text is none.
fn version(alloc: Global, clause: &Clause) -> Result<Option<Version>, AllocError>
    ensures version { IfOk result (λ version. version ≡ version_of (spec.version_text (codes "version") clause.now)) }
{
    Ok(Version::parse(alloc, version_text(b"version", clause))?.ok())
}

fn has_java(paths: &[Text]) -> bool
    ensures java { result ≡ list_any package_spec.is_java paths.now }
{
    paths.iter().any(|path| is_java(path.bytes()))
}

fn has_the_exporters(attributes: &[Typed]) -> bool
    ensures its { result ≡ list_any spec.is_implicit attributes.now }
{
    attributes.iter().any(|attribute| is_implicit(attribute))
}

/// What is wrong with the names of a clause's packages or attributes.
fn named_fault(clause: &Clause) -> Option<PackageKind>
    ensures fault { result ≡ computed.named_fault clause.now }
{
    if has_java(clause.paths.items()) {
        return Some(PackageKind::JavaExport);
    }
    if has_the_exporters(clause.attributes.items()) {
        return Some(PackageKind::ImplicitAttribute);
    }
    None
}

/// The attributes with the version after the others.
fn with_version(
    alloc: Global,
    others: Attributes,
    version: Version,
) -> Result<Attributes, AllocError>
    ensures attributes { IfOk result (λ attributes. attributes ≡ others ++ version_attribute version ∷ []) }
{
    let mut attributes = others;
    let name = Text::of(alloc, b"version")?;
    let value = Value::Version(version);
    attributes.push(Attribute { name, value })?;
    Ok(attributes)
}

/// What a clause offers of each of its packages, for which there is no name yet.
fn capability(
    alloc: Global,
    clause: &Clause,
    attributes: Attributes,
) -> Result<Capability, AllocError>
    ensures offer { IfOk result (IsOfferOf clause.now attributes) }
{
    let uses = listed(alloc, b"uses", clause)?;
    let mandatory = listed(alloc, b"mandatory", clause)?;
    Ok(Capability {
        namespace: Text::of(alloc, b"osgi.wiring.package")?,
        name: Text::of(alloc, b"")?,
        attributes: Shared::new(alloc, attributes)?,
        uses: Shared::new(alloc, uses)?,
        mandatory: Shared::new(alloc, mandatory)?,
    })
}

/// What a clause offers of each of its packages; or its first fault.
fn offer(alloc: Global, clause: &Clause) -> Result<Result<Capability, PackageKind>, AllocError>
    ensures offer { IfOk result (IsOffer clause.now) }
{
    let Some(version) = version(alloc, clause)? else {
        return Ok(Err(PackageKind::BadVersion));
    };
    let others = match attributes(alloc, clause)? {
        Ok(others) => others,
        Err(kind) => return Ok(Err(kind)),
    };
    if let Some(kind) = named_fault(clause) {
        return Ok(Err(kind));
    }
    let attributes = with_version(alloc, others, version)?;
    Ok(Ok(capability(alloc, clause, attributes)?))
}

/// What a clause offers of one of its packages.
fn capability_for(
    alloc: Global,
    template: &Capability,
    path: &Text,
) -> Result<Capability, AllocError>
    ensures named { IfOk result (λ c. c ≡ record template.now { name = path.now }) }
{
    let mut capability = template.copy(alloc)?;
    capability.name = path.copy(alloc)?;
    Ok(capability)
}

/// Adds the capabilities of a clause's packages.
fn add_capabilities(
    alloc: Global,
    capabilities: &mut List<Capability>,
    template: &Capability,
    paths: &[Text],
) -> Result<(), AllocError>
    ensures added { OnOk result (capabilities.new ≡ capabilities.old ++ capabilities_of template.now paths.now) }
{
    for path in paths {
        capabilities.push(capability_for(alloc, template, path)?)?;
    }
    Ok(())
}

/// Adds the capabilities of a clause; or its first fault.
fn add_clause(
    alloc: Global,
    capabilities: &mut List<Capability>,
    clause: &Clause,
) -> Result<Option<PackageKind>, AllocError>
    ensures added { IfOk result (IsAdded capabilities.old capabilities.new clause.now) }
{
    match offer(alloc, clause)? {
        Ok(template) => {
            add_capabilities(alloc, capabilities, &template, clause.paths.items())?;
            Ok(None)
        }
        Err(kind) => Ok(Some(kind)),
    }
}

/// The capabilities of the clauses, or the first fault of the first faulty one.
fn read(
    alloc: Global,
    clauses: &[Clause],
) -> Result<Result<List<Capability>, PackageFault>, AllocError>
    requires few { length clauses.now < u32.MAX }
    ensures answer { IfOk result (IsTheAnswer SaysExports clauses.now) }
{
    let mut capabilities = List::new(alloc)?;
    for (number, clause) in clauses.iter().enumerate() {
        if let Some(kind) = add_clause(alloc, &mut capabilities, clause)? {
            let clause = number as u32;
            return Ok(Err(PackageFault { kind, clause }));
        }
    }
    Ok(Ok(capabilities))
}

/// What the clauses of Export-Package offer: a capability for each package, in order.
///
/// A fault is the first one of the first faulty clause, in the order `BadVersion`, `DoubleType`, `BadValue`, `JavaExport`,
/// `ImplicitAttribute`.
pub fn exports(
    alloc: Global,
    clauses: &List<Clause>,
) -> Result<Result<List<Capability>, PackageFault>, AllocError>
    requires few { length clauses.now < u32.MAX }
    ensures reads { IfOk result (λ r. MatchResult r (AreExports clauses.now) (IsExportFault clauses.now)) }
    ensures only { (others : List Capability) → AreExports clauses.now others → IfOk result (λ r. r ≡ Ok others) }
    ensures fault { (other : PackageFault) → IsExportFault clauses.now other → IfOk result (λ r. r ≡ Err other) }
{
    read(alloc, clauses.items())
}
