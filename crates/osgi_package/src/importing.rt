//! The packages that a bundle imports.

ghost use Rattle.std.specs.Prelude.{◌≡◌, ◌<◌, ◌++◌, ℕ, List, length, codes, IfOk, OnOk, MatchResult, Ok, Err};
ghost use Rattle.std.specs.Bool.{OnTrue};
ghost use Rattle.osgi_header.specs.declared.clause.Clause.{Clause};
ghost use Rattle.osgi_world.specs.declared.requirement.Requirement.{Requirement};
ghost use Rattle.osgi_package.specs.declared.fault.PackageFault.{PackageFault};
ghost use Rattle.osgi_package.specs.Imports.{AreImports, IsImportFault, SaysImports};
ghost use Rattle.osgi_package.specs.Packages.{packages};
ghost use Rattle.osgi_package.specs.Parameters as spec;
ghost use Rattle.osgi_package.specs.computed.Answers.{IsTheAnswer};
ghost use Rattle.osgi_package.specs.computed.ImportReader.{AreNew, AreRanges, AreSeen, IsAdded, IsRangeOf, IsTemplate, requirements_of, template_of};

use crate::attributes::attributes;
use crate::distinct::add_texts;
use crate::fault::{PackageFault, PackageKind};
use crate::parameters::{attribute_text, is_directed, is_java, version_text};
use osgi_base::{List, Shared, Text};
use osgi_header::Clause;
use osgi_model::Attributes;
use osgi_version::VersionRange;
use osgi_world::{Requirement, SharedRange};
use std::alloc::{AllocError, Global};
use std::collections::BTreeSet;

/// The range that a text reads as; none where it reads as none.
pub fn range(alloc: Global, text: &[u8]) -> Result<Option<VersionRange>, AllocError>
    ensures range { IfOk result (IsRangeOf text.now) }
{
    Ok(VersionRange::parse(alloc, text)?.ok())
}

/// The versions of the package and of its exporter; none where one of the texts is no range.
fn ranges(
    alloc: Global,
    clause: &Clause,
) -> Result<Option<(VersionRange, VersionRange)>, AllocError>
    ensures ranges { IfOk result (AreRanges clause.now) }
{
    let Some(own) = range(alloc, version_text(b"version", clause))? else {
        return Ok(None);
    };
    let Some(exporter) = range(alloc, version_text(b"bundle-version", clause))? else {
        return Ok(None);
    };
    Ok(Some((own, exporter)))
}

/// The symbolic name that the exporter has to have, if the clause gives one.
fn exporter_name(alloc: Global, clause: &Clause) -> Result<Option<Text>, AllocError>
    ensures name { IfOk result (λ name. name ≡ spec.attribute_text (codes "bundle-symbolic-name") clause.now) }
{
    match attribute_text(b"bundle-symbolic-name", clause) {
        Some(name) => Ok(Some(name.copy(alloc)?)),
        None => Ok(None),
    }
}

/// The namespace of packages, and the symbolic name that the exporter has to have, if the clause gives one.
fn texts(alloc: Global, clause: &Clause) -> Result<(Text, Option<Text>), AllocError>
    ensures texts { IfOk result (λ texts. texts ≡ (codes "osgi.wiring.package", spec.attribute_text (codes "bundle-symbolic-name") clause.now)) }
{
    let namespace = Text::of(alloc, b"osgi.wiring.package")?;
    Ok((namespace, exporter_name(alloc, clause)?))
}

/// What a clause asks of each of its packages, for which there is no name yet.
fn requirement(
    alloc: Global,
    clause: &Clause,
    ranges: (VersionRange, VersionRange),
    equal: Attributes,
) -> Result<Requirement, AllocError>
    ensures template { IfOk result (λ r. r ≡ template_of clause.now ranges.0 ranges.1 equal) }
{
    let (namespace, from_name) = texts(alloc, clause)?;
    let (range, from_range) = ranges;
    Ok(Requirement {
        namespace,
        name: Text::empty(),
        range: SharedRange::of(alloc, range)?,
        from_name,
        from_range: SharedRange::of(alloc, from_range)?,
        equal: Shared::new(alloc, equal)?,
        filter: None,
        optional: is_directed(b"resolution", b"optional", clause),
        multiple: false,
        reexport: false,
        effective: true,
    })
}

/// What a clause asks of each of its packages; or the first of its faults but that of a package imported twice.
fn template(alloc: Global, clause: &Clause) -> Result<Result<Requirement, PackageKind>, AllocError>
    ensures template { IfOk result (IsTemplate clause.now) }
{
    let Some(ranges) = ranges(alloc, clause)? else {
        return Ok(Err(PackageKind::BadVersion));
    };
    match attributes(alloc, clause)? {
        Ok(equal) => Ok(Ok(requirement(alloc, clause, ranges, equal)?)),
        Err(kind) => Ok(Err(kind)),
    }
}

/// What a clause asks of one of its packages.
fn requirement_for(
    alloc: Global,
    template: &Requirement,
    path: &Text,
) -> Result<Requirement, AllocError>
    ensures named { IfOk result (λ r. r ≡ record template.now { name = path.now }) }
{
    let mut requirement = template.copy(alloc)?;
    requirement.name = path.copy(alloc)?;
    Ok(requirement)
}

/// Adds the requirements of a clause's packages, of which those of Java have none.
fn add_requirements(
    alloc: Global,
    requirements: &mut List<Requirement>,
    template: &Requirement,
    paths: &[Text],
) -> Result<(), AllocError>
    ensures added { OnOk result (requirements.new ≡ requirements.old ++ requirements_of template.now paths.now) }
{
    for path in paths {
        if !is_java(path.bytes()) {
            requirements.push(requirement_for(alloc, template, path)?)?;
        }
    }
    Ok(())
}

/// Adds the packages of a clause to those that were seen, and their requirements; false where a package was seen before.
fn add_all(
    alloc: Global,
    seen: &mut BTreeSet<Text>,
    requirements: &mut List<Requirement>,
    template: &Requirement,
    paths: &[Text],
) -> Result<bool, AllocError>
    ensures new { (before : List (List ℕ)) → AreSeen seen.old before → IfOk result (AreNew seen.new (before ++ paths.now)) }
    ensures added { IfOk result (λ new. OnTrue new (requirements.new ≡ requirements.old ++ requirements_of template.now paths.now)) }
{
    if !add_texts(alloc, seen, paths)? {
        return Ok(false);
    }
    add_requirements(alloc, requirements, template, paths)?;
    Ok(true)
}

/// Adds the requirements of a clause, and its packages to those that were seen; or the clause's first fault.
fn add_clause(
    alloc: Global,
    seen: &mut BTreeSet<Text>,
    requirements: &mut List<Requirement>,
    clause: &Clause,
) -> Result<Option<PackageKind>, AllocError>
    ensures added { (before : List Clause) → AreSeen seen.old (packages before) → IfOk result (IsAdded requirements.old requirements.new seen.new before clause.now) }
{
    let template = match template(alloc, clause)? {
        Ok(template) => template,
        Err(kind) => return Ok(Some(kind)),
    };
    if add_all(alloc, seen, requirements, &template, clause.paths.items())? {
        Ok(None)
    } else {
        Ok(Some(PackageKind::Duplicate))
    }
}

/// The requirements of the clauses, or the first fault of the first faulty one.
fn read(
    alloc: Global,
    clauses: &[Clause],
) -> Result<Result<List<Requirement>, PackageFault>, AllocError>
    requires few { length clauses.now < u32.MAX }
    ensures answer { IfOk result (IsTheAnswer SaysImports clauses.now) }
{
    let mut seen = BTreeSet::new(alloc);
    let mut requirements = List::new(alloc)?;
    for (number, clause) in clauses.iter().enumerate() {
        if let Some(kind) = add_clause(alloc, &mut seen, &mut requirements, clause)? {
            let clause = number as u32;
            return Ok(Err(PackageFault { kind, clause }));
        }
    }
    Ok(Ok(requirements))
}

/// What the clauses of Import-Package ask for: a requirement for each package, in order, but none for a package of Java.
///
/// A fault is the first one of the first faulty clause, in the order `BadVersion`, `DoubleType`, `BadValue`, `Duplicate`; a
/// package that is imported twice is at fault in the later clause.
pub fn imports(
    alloc: Global,
    clauses: &List<Clause>,
) -> Result<Result<List<Requirement>, PackageFault>, AllocError>
    requires few { length clauses.now < u32.MAX }
    ensures reads { IfOk result (λ r. MatchResult r (AreImports clauses.now) (IsImportFault clauses.now)) }
    ensures only { (others : List Requirement) → AreImports clauses.now others → IfOk result (λ r. r ≡ Ok others) }
    ensures fault { (other : PackageFault) → IsImportFault clauses.now other → IfOk result (λ r. r ≡ Err other) }
{
    read(alloc, clauses.items())
}
