//! The packages that a bundle imports and exports.

ghost use Rattle.std.specs.Prelude.{◌≡◌, ◌<◌, List, Ok, Err, IfOk, MatchResult};
ghost use Rattle.osgi_world.specs.declared.capability.Capability.{Capability};
ghost use Rattle.osgi_world.specs.declared.manifest_fault.ManifestKind.TheVariants as fault;
ghost use Rattle.osgi_world.specs.declared.requirement.Requirement.{Requirement};
ghost use Rattle.osgi_package.specs.declared.fault.PackageFault.{PackageFault};
ghost use Rattle.osgi_package.specs.Exports.{AreExports, IsExportFault};
ghost use Rattle.osgi_package.specs.Imports.{AreImports, IsImportFault};
ghost use Rattle.osgi_clause.specs.ClauseFaults.{clauses_of};
ghost use Rattle.osgi_clause.specs.Faults as spec;
ghost use Rattle.osgi_clause.specs.Faults.{export_clause_faults, import_clause_faults};
ghost use Rattle.osgi_clause.specs.Walks.{Walked};
ghost use Rattle.osgi_clause.specs.computed.Packages.{IsPlainLen, fault_in, or_repeated_of};

use crate::fault::ClauseFault;
use crate::repeats::repeats;
use osgi_base::List;
use osgi_header::{Clause, ClauseAt};
use osgi_package::{PackageFault, PackageKind, exports, imports};
use osgi_world::{Capability, ManifestKind, Requirement};
use std::alloc::{AllocError, Global};

/// So many clauses are read at most; no value of a manifest has more.
const MAX_CLAUSES: usize = 4_294_967_294;

/// How many clauses stand before the first that gives an attribute or a directive twice.
fn plain_len(alloc: Global, clauses: &[ClauseAt]) -> Result<usize, AllocError>
    ensures plain { IfOk result (IsPlainLen clauses.now) }
{
    for (at, item) in clauses.iter().enumerate() {
        if repeats(alloc, &item.clause)? {
            return Ok(at);
        }
    }
    Ok(clauses.len())
}

/// The clauses without their places.
fn without_places(alloc: Global, clauses: &[ClauseAt]) -> Result<List<Clause>, AllocError>
    ensures clauses { IfOk result (λ all. all ≡ clauses_of clauses.now) }
{
    let mut all = List::with_capacity(alloc, clauses.len())?;
    for item in clauses {
        all.push(item.clause.copy(alloc)?)?;
    }
    Ok(all)
}

/// What a manifest calls a fault of its package headers; a version or a range that is none is called this.
fn kind_of(unversioned: ManifestKind, kind: PackageKind) -> ManifestKind
    ensures kind { result ≡ spec.kind_of unversioned kind }
{
    match kind {
        PackageKind::Duplicate => ManifestKind::DuplicateImport,
        PackageKind::JavaExport => ManifestKind::JavaExport,
        PackageKind::ImplicitAttribute => ManifestKind::ImplicitAttribute,
        PackageKind::BadVersion => unversioned,
        PackageKind::BadValue => ManifestKind::BadValue,
        PackageKind::DoubleType => ManifestKind::DoubleType,
    }
}

/// The fault, where the faulty clause begins.
fn fault_in(clauses: &[ClauseAt], unversioned: ManifestKind, fault: PackageFault) -> ClauseFault
    ensures fault { result ≡ fault_in clauses.now unversioned fault }
{
    let kind = kind_of(unversioned, fault.kind);
    let at = match clauses.get(fault.clause as usize) {
        Some(clause) => clause.at,
        None => 0,
    };
    ClauseFault { kind, at }
}

/// What was made, unless a clause follows, which gives an attribute or a directive twice.
fn or_repeated<A: Drop>(clauses: &[ClauseAt], made: A) -> Result<A, ClauseFault>
    ensures made { result ≡ or_repeated_of clauses.now made }
{
    match clauses.first() {
        Some(clause) => {
            let kind = ManifestKind::BadClause;
            let at = clause.at;
            Err(ClauseFault { kind, at })
        }
        None => Ok(made),
    }
}

/// What so few clauses import.
fn few_imports(
    alloc: Global,
    clauses: &List<Clause>,
) -> Result<Result<List<Requirement>, PackageFault>, AllocError>
    ensures reads { IfOk result (λ r. MatchResult r (AreImports clauses.now) (IsImportFault clauses.now)) }
    ensures only { (others : List Requirement) → AreImports clauses.now others → IfOk result (λ r. r ≡ Ok others) }
    ensures fault { (other : PackageFault) → IsImportFault clauses.now other → IfOk result (λ r. r ≡ Err other) }
{
    if clauses.items().len() > MAX_CLAUSES {
        return Err(AllocError);
    }
    imports(alloc, clauses)
}

/// What so few clauses export.
fn few_exports(
    alloc: Global,
    clauses: &List<Clause>,
) -> Result<Result<List<Capability>, PackageFault>, AllocError>
    ensures reads { IfOk result (λ r. MatchResult r (AreExports clauses.now) (IsExportFault clauses.now)) }
    ensures only { (others : List Capability) → AreExports clauses.now others → IfOk result (λ r. r ≡ Ok others) }
    ensures fault { (other : PackageFault) → IsExportFault clauses.now other → IfOk result (λ r. r ≡ Err other) }
{
    if clauses.items().len() > MAX_CLAUSES {
        return Err(AllocError);
    }
    exports(alloc, clauses)
}

/// What the clauses of Import-Package ask for, or the first fault of the first faulty one.
pub fn imported(
    alloc: Global,
    clauses: &[ClauseAt],
) -> Result<Result<List<Requirement>, ClauseFault>, AllocError>
    ensures walked { IfOk result (Walked import_clause_faults AreImports clauses.now) }
{
    let (before, rest) = clauses.split_at(plain_len(alloc, clauses)?);
    let all = without_places(alloc, before)?;
    match few_imports(alloc, &all)? {
        Ok(made) => Ok(or_repeated(rest, made)),
        Err(fault) => Ok(Err(fault_in(before, ManifestKind::BadRange, fault))),
    }
}

/// What the clauses of Export-Package offer, or the first fault of the first faulty one.
pub fn exported(
    alloc: Global,
    clauses: &[ClauseAt],
) -> Result<Result<List<Capability>, ClauseFault>, AllocError>
    ensures walked { IfOk result (Walked export_clause_faults AreExports clauses.now) }
{
    let (before, rest) = clauses.split_at(plain_len(alloc, clauses)?);
    let all = without_places(alloc, before)?;
    match few_exports(alloc, &all)? {
        Ok(made) => Ok(or_repeated(rest, made)),
        Err(fault) => Ok(Err(fault_in(before, ManifestKind::BadVersion, fault))),
    }
}
