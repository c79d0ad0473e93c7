//! The bundles that the clauses of Require-Bundle name.

ghost use Rattle.std.specs.Prelude.{◌≡◌, [], true, IfOk};
ghost use Rattle.osgi_version.specs.declared.range.VersionRange.{VersionRange};
ghost use Rattle.osgi_clause.specs.Faults.{bundle_faults};
ghost use Rattle.osgi_clause.specs.Members.{AreMade, IsRequiredBundle};
ghost use Rattle.osgi_clause.specs.Walks.{Walked};
ghost use Rattle.osgi_clause.specs.computed.Templates.{IsBundleOf, bundle_of, directed_of, named_of};

use crate::fault::ClauseFault;
use crate::members::{ClauseReader, members};
use crate::ranges::any_range;
use crate::repeats::repeats;
use osgi_base::{List, Shared, Text};
use osgi_header::{Clause, ClauseAt};
use osgi_package::{is_directed, range, version_text};
use osgi_version::VersionRange;
use osgi_world::{ManifestKind, Requirement, SharedRange};
use std::alloc::{AllocError, Global};

/// A requirement of a bundle in this range, for which there is no name yet.
fn bundle_in(
    alloc: Global,
    range: VersionRange,
    from_range: VersionRange,
) -> Result<Requirement, AllocError>
    ensures bundle { IfOk result (λ r. r ≡ bundle_of range from_range) }
{
    let namespace = Text::of(alloc, b"osgi.wiring.bundle")?;
    let equal = List::new(alloc)?;
    Ok(Requirement {
        namespace,
        name: Text::empty(),
        range: SharedRange::of(alloc, range)?,
        from_name: None,
        from_range: SharedRange::of(alloc, from_range)?,
        equal: Shared::new(alloc, equal)?,
        filter: None,
        optional: false,
        multiple: false,
        reexport: false,
        effective: true,
    })
}

/// What a clause asks of the bundle that it names, for which there is no name yet; none where its range reads as none.
pub fn bundle(alloc: Global, clause: &Clause) -> Result<Option<Requirement>, AllocError>
    ensures bundle { IfOk result (IsBundleOf clause.now) }
{
    let Some(range) = range(alloc, version_text(b"bundle-version", clause))? else {
        return Ok(None);
    };
    let any = any_range(alloc)?;
    Ok(Some(bundle_in(alloc, range, any)?))
}

/// The requirement with this name.
pub fn named(alloc: Global, template: &Requirement, name: &Text) -> Result<Requirement, AllocError>
    ensures named { IfOk result (λ r. r ≡ named_of template.now name.now) }
{
    let mut requirement = template.copy(alloc)?;
    requirement.name = name.copy(alloc)?;
    Ok(requirement)
}

/// The requirement with what the clause's directives say.
fn directed(bundle: Requirement, clause: &Clause) -> Requirement
    ensures directed { result ≡ directed_of clause.now bundle }
{
    let mut directed = bundle;
    directed.optional = is_directed(b"resolution", b"optional", clause);
    directed.reexport = is_directed(b"visibility", b"reexport", clause);
    directed
}

/// The clauses of Require-Bundle.
struct RequiredBundles;

impl ClauseReader for RequiredBundles {
    type Item = Requirement;

    ghost faults = { bundle_faults [] };

    ghost takes = { λ clause. true };

    ghost makes = { IsRequiredBundle };

    ghost named = { named_of };

    fn template(
        alloc: Global,
        clause: &Clause,
    ) -> Result<Result<Requirement, ManifestKind>, AllocError> {
        if repeats(alloc, clause)? {
            return Ok(Err(ManifestKind::BadClause));
        }
        match bundle(alloc, clause)? {
            Some(bundle) => Ok(Ok(directed(bundle, clause))),
            None => Ok(Err(ManifestKind::BadRange)),
        }
    }

    fn takes(_clause: &Clause) -> bool {
        true
    }

    fn named(
        alloc: Global,
        template: &Requirement,
        path: &Text,
    ) -> Result<Requirement, AllocError> {
        named(alloc, template, path)
    }
}

/// The bundles that the clauses of Require-Bundle ask for, or the first fault of the first faulty one.
pub fn required_bundles(
    alloc: Global,
    clauses: &[ClauseAt],
) -> Result<Result<List<Requirement>, ClauseFault>, AllocError>
    ensures walked { IfOk result (Walked bundle_faults (AreMade IsRequiredBundle) clauses.now) }
{
    members::<RequiredBundles>(alloc, clauses)
}
