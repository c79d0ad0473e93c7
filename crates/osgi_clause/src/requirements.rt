//! What the clauses of Require-Capability ask for.

ghost use Rattle.std.specs.Prelude.{◌≡◌, [], true, codes, IfOk};
ghost use Rattle.osgi_package.specs.Parameters as package_spec;
ghost use Rattle.osgi_clause.specs.Faults.{required_faults};
ghost use Rattle.osgi_clause.specs.Members.{AreMade, IsRequired};
ghost use Rattle.osgi_clause.specs.Walks.{Walked};
ghost use Rattle.osgi_clause.specs.computed.Templates.{IsFilterRead, required_in, required_of};

use crate::effective::takes_part;
use crate::fault::ClauseFault;
use crate::members::{ClauseReader, members};
use crate::namespaces::has_reserved;
use crate::ranges::any_ranges;
use crate::repeats::repeats;
use osgi_base::{List, Shared, Text};
use osgi_filter::parse;
use osgi_header::{Clause, ClauseAt};
use osgi_model::Filter;
use osgi_package::{directive_value, is_directed};
use osgi_version::VersionRange;
use osgi_world::{ManifestKind, Requirement, SharedRange};
use std::alloc::{AllocError, Global};

/// The filter that the clause gives, if it gives one; or that its text reads as none.
fn filter(
    alloc: Global,
    clause: &Clause,
) -> Result<Result<Option<Shared<Filter>>, ManifestKind>, AllocError>
    ensures filter { IfOk result (IsFilterRead (package_spec.directive_value (codes "filter") clause.now)) }
{
    let Some(text) = directive_value(b"filter", clause) else {
        return Ok(Ok(None));
    };
    match parse(alloc, text.bytes())? {
        Ok(filter) => Ok(Ok(Some(Shared::new(alloc, filter)?))),
        Err(_) => Ok(Err(ManifestKind::BadFilter)),
    }
}

/// What a clause with this filter asks of each of its namespaces, for which there is none yet.
fn requirement(
    alloc: Global,
    clause: &Clause,
    filter: Option<Shared<Filter>>,
    ranges: (VersionRange, VersionRange),
) -> Result<Requirement, AllocError>
    ensures required { IfOk result (λ r. r ≡ required_of clause.now filter ranges.0 ranges.1) }
{
    let (range, from_range) = ranges;
    let equal = List::new(alloc)?;
    Ok(Requirement {
        namespace: Text::empty(),
        name: Text::empty(),
        range: SharedRange::of(alloc, range)?,
        from_name: None,
        from_range: SharedRange::of(alloc, from_range)?,
        equal: Shared::new(alloc, equal)?,
        filter,
        optional: is_directed(b"resolution", b"optional", clause),
        multiple: is_directed(b"cardinality", b"multiple", clause),
        reexport: false,
        effective: takes_part(clause),
    })
}

/// The clauses of Require-Capability.
struct RequiredCapabilities;

impl ClauseReader for RequiredCapabilities {
    type Item = Requirement;

    ghost faults = { required_faults [] };

    ghost takes = { λ clause. true };

    ghost makes = { IsRequired };

    ghost named = { required_in };

    fn template(
        alloc: Global,
        clause: &Clause,
    ) -> Result<Result<Requirement, ManifestKind>, AllocError> {
        if repeats(alloc, clause)? {
            return Ok(Err(ManifestKind::BadClause));
        }
        let filter = match filter(alloc, clause)? {
            Ok(filter) => filter,
            Err(kind) => return Ok(Err(kind)),
        };
        if has_reserved(clause.paths.items()) {
            return Ok(Err(ManifestKind::ReservedNamespace));
        }
        let ranges = any_ranges(alloc)?;
        Ok(Ok(requirement(alloc, clause, filter, ranges)?))
    }

    fn takes(_clause: &Clause) -> bool {
        true
    }

    fn named(
        alloc: Global,
        template: &Requirement,
        path: &Text,
    ) -> Result<Requirement, AllocError> {
        let mut requirement = template.copy(alloc)?;
        requirement.namespace = path.copy(alloc)?;
        requirement.name = path.copy(alloc)?;
        Ok(requirement)
    }
}

/// What the clauses of Require-Capability ask for, or the first fault of the first faulty one.
pub fn required_capabilities(
    alloc: Global,
    clauses: &[ClauseAt],
) -> Result<Result<List<Requirement>, ClauseFault>, AllocError>
    ensures walked { IfOk result (Walked required_faults (AreMade IsRequired) clauses.now) }
{
    members::<RequiredCapabilities>(alloc, clauses)
}
