//! The host that a bundle is a fragment of.

ghost use Rattle.std.specs.Prelude.{◌≡◌, if◌then◌else◌, codes, IfOk, Ok, Err, is_some};
ghost use Rattle.osgi_world.specs.declared.manifest_fault.ManifestKind.TheVariants as fault;
ghost use Rattle.osgi_package.specs.Parameters as package_spec;
ghost use Rattle.osgi_clause.specs.Faults.{host_faults};
ghost use Rattle.osgi_clause.specs.Lone.{IsLone, SaysHost};
ghost use Rattle.osgi_clause.specs.Walks.{Walked};
ghost use Rattle.osgi_clause.specs.computed.Lone.{IsHostBy, IsHostMade};
ghost use Rattle.osgi_clause.specs.computed.Templates.{named_of};

use crate::bundles::bundle;
use crate::fault::ClauseFault;
use crate::lone::lone;
use crate::repeats::repeats;
use osgi_base::Text;
use osgi_header::{Clause, ClauseAt};
use osgi_package::directive_value;
use osgi_world::{ManifestKind, Requirement};
use std::alloc::{AllocError, Global};

/// The host, unless the clause says that the bundle extends it.
fn not_extending(clause: &Clause, host: Requirement) -> Result<Requirement, ManifestKind>
    ensures host { result ≡ (if is_some (package_spec.directive_value (codes "extension") clause.now) then Err fault.Extension else Ok host) }
{
    if directive_value(b"extension", clause).is_some() {
        return Err(ManifestKind::Extension);
    }
    Ok(host)
}

fn with_name(bundle: Requirement, name: Text) -> Requirement
    ensures named { result ≡ named_of bundle name }
{
    let mut named = bundle;
    named.name = name;
    named
}

/// What a clause that names this host asks of it, or the first fault of its range and directives.
fn named_host(
    alloc: Global,
    clause: &Clause,
    path: &Text,
) -> Result<Result<Requirement, ManifestKind>, AllocError>
    ensures host { IfOk result (IsHostBy clause.now path.now) }
{
    let name = path.copy(alloc)?;
    match bundle(alloc, clause)? {
        Some(bundle) => Ok(not_extending(clause, with_name(bundle, name))),
        None => Ok(Err(ManifestKind::BadRange)),
    }
}

/// What a clause asks of its host, or its first fault but that of a clause with others before it.
fn clause_host(
    alloc: Global,
    clause: &Clause,
) -> Result<Result<Requirement, ManifestKind>, AllocError>
    ensures host { IfOk result (IsHostMade clause.now) }
{
    if repeats(alloc, clause)? {
        return Ok(Err(ManifestKind::BadClause));
    }
    match clause.paths.items() {
        [path] => named_host(alloc, clause, path),
        _ => Ok(Err(ManifestKind::BadClause)),
    }
}

/// What the one clause of Fragment-Host asks of its host, if there is a clause; or the first faulty one.
pub fn hosted(
    alloc: Global,
    clauses: &[ClauseAt],
) -> Result<Result<Option<Requirement>, ClauseFault>, AllocError>
    ensures walked { IfOk result (Walked host_faults (IsLone SaysHost) clauses.now) }
{
    let [first, ..] = clauses else {
        return Ok(Ok(None));
    };
    match clause_host(alloc, &first.clause)? {
        Ok(host) => Ok(lone(clauses, ManifestKind::BadClause, host)),
        Err(kind) => {
            let at = first.at;
            Ok(Err(ClauseFault { kind, at }))
        }
    }
}
