//! The headers whose clauses name what a bundle asks for or offers, and what each of them makes.

ghost use Rattle.std.specs.Prelude.{◌≡◌, ℕ, List, codes, IfOk};
ghost use Rattle.osgi_header.specs.declared.clause.Clause.{Clause};
ghost use Rattle.osgi_world.specs.declared.manifest_fault.ManifestKind.{ManifestKind};
ghost use Rattle.osgi_package.specs.Exports.{AreExports};
ghost use Rattle.osgi_package.specs.Imports.{AreImports};
ghost use Rattle.osgi_package.specs.Only.{IsOnly};
ghost use Rattle.osgi_clause.specs.Faults.{bundle_faults, export_clause_faults, import_clause_faults, provided_faults, required_faults};
ghost use Rattle.osgi_clause.specs.Members.{AreMade, IsRequired, IsRequiredBundle, AreProvided};
ghost use Rattle.osgi_clause.specs.Walks.{Walked};
ghost use Rattle.osgi_manifest.specs.computed.Answers.{IsMadeIn, IsStep};
ghost use Rattle.osgi_manifest.specs.computed.Steps.{section_conditions};

use crate::headers::{made_of, read_header};
use osgi_base::{List, Stop};
use osgi_clause::ClauseFault;
use osgi_header::{ClauseAt, Header};
use osgi_world::{Capability, ManifestFault, ManifestKind, Requirement};
use std::alloc::{AllocError, Global};

/// A header whose clauses name what a bundle asks for or offers.
pub trait Section {
    /// What the clauses make.
    type Made: Drop;

    /// The name of the header.
    ghost name: { List ℕ };

    /// The faults of a clause in order, by the clauses before it.
    ghost faults: { List Clause → Clause → List (ManifestKind → Type 0) };

    /// What clauses without a fault make.
    ghost makes: { List Clause → Self.Made → Type 0 };

    fn name() -> &'static [u8]
        ensures name { result.now ≡ name };

    /// What the clauses make, or the first faulty one of them.
    fn made(
        alloc: Global,
        clauses: &[ClauseAt],
    ) -> Result<Result<Self::Made, ClauseFault>, AllocError>
        ensures walked { IfOk result (Walked faults makes clauses.now) };
}

/// What the header makes, or its fault. Without the header it is what no clauses make.
pub fn read_section<S: Section>(
    alloc: Global,
    headers: &[Header],
) -> Result<S::Made, Stop<ManifestFault>>
    ensures step { IsStep (section_conditions headers.now S.name S.faults)
        (IsOnly (IsMadeIn S.makes headers.now S.name)) result }
{
    let name = S::name();
    let read = read_header(alloc, name, headers)?;
    let made = S::made(alloc, read.clauses.items())?;
    made_of(alloc, name, ManifestKind::BadClause, read.fault, made)
}

/// Require-Bundle.
pub struct RequireBundle;

impl Section for RequireBundle {
    type Made = List<Requirement>;

    ghost name = { codes "Require-Bundle" };

    ghost faults = { bundle_faults };

    ghost makes = { AreMade IsRequiredBundle };

    fn name() -> &'static [u8] {
        b"Require-Bundle"
    }

    fn made(
        alloc: Global,
        clauses: &[ClauseAt],
    ) -> Result<Result<List<Requirement>, ClauseFault>, AllocError> {
        osgi_clause::required_bundles(alloc, clauses)
    }
}

/// Import-Package.
pub struct ImportPackage;

impl Section for ImportPackage {
    type Made = List<Requirement>;

    ghost name = { codes "Import-Package" };

    ghost faults = { import_clause_faults };

    ghost makes = { AreImports };

    fn name() -> &'static [u8] {
        b"Import-Package"
    }

    fn made(
        alloc: Global,
        clauses: &[ClauseAt],
    ) -> Result<Result<List<Requirement>, ClauseFault>, AllocError> {
        osgi_clause::imported(alloc, clauses)
    }
}

/// Export-Package.
pub struct ExportPackage;

impl Section for ExportPackage {
    type Made = List<Capability>;

    ghost name = { codes "Export-Package" };

    ghost faults = { export_clause_faults };

    ghost makes = { AreExports };

    fn name() -> &'static [u8] {
        b"Export-Package"
    }

    fn made(
        alloc: Global,
        clauses: &[ClauseAt],
    ) -> Result<Result<List<Capability>, ClauseFault>, AllocError> {
        osgi_clause::exported(alloc, clauses)
    }
}

/// Require-Capability.
pub struct RequireCapability;

impl Section for RequireCapability {
    type Made = List<Requirement>;

    ghost name = { codes "Require-Capability" };

    ghost faults = { required_faults };

    ghost makes = { AreMade IsRequired };

    fn name() -> &'static [u8] {
        b"Require-Capability"
    }

    fn made(
        alloc: Global,
        clauses: &[ClauseAt],
    ) -> Result<Result<List<Requirement>, ClauseFault>, AllocError> {
        osgi_clause::required_capabilities(alloc, clauses)
    }
}

/// Provide-Capability.
pub struct ProvideCapability;

impl Section for ProvideCapability {
    type Made = List<Capability>;

    ghost name = { codes "Provide-Capability" };

    ghost faults = { provided_faults };

    ghost makes = { AreProvided };

    fn name() -> &'static [u8] {
        b"Provide-Capability"
    }

    fn made(
        alloc: Global,
        clauses: &[ClauseAt],
    ) -> Result<Result<List<Capability>, ClauseFault>, AllocError> {
        osgi_clause::provided_capabilities(alloc, clauses)
    }
}
