//! What the clauses of Provide-Capability offer.

ghost use Rattle.std.specs.Prelude.{◌≡◌, [], IfOk};
ghost use Rattle.osgi_clause.specs.Faults.{provided_faults};
ghost use Rattle.osgi_clause.specs.Members.{AreProvided, IsProvided};
ghost use Rattle.osgi_clause.specs.Walks.{Walked};
ghost use Rattle.osgi_clause.specs.Directives as spec;
ghost use Rattle.osgi_clause.specs.computed.Templates.{AreAttributesRead, provided_in, provided_of};

use crate::effective::takes_part;
use crate::fault::ClauseFault;
use crate::members::{ClauseReader, members};
use crate::namespaces::has_reserved;
use crate::repeats::repeats;
use osgi_base::{List, Shared, Text};
use osgi_header::{Clause, ClauseAt};
use osgi_model::Attributes;
use osgi_package::{has_double, read_attributes};
use osgi_world::{Capability, ManifestKind};
use std::alloc::{AllocError, Global};

/// The attributes of a clause with their values, or what is wrong with these.
fn attributes(
    alloc: Global,
    clause: &Clause,
) -> Result<Result<Attributes, ManifestKind>, AllocError>
    ensures attributes { IfOk result (AreAttributesRead clause.now) }
{
    if has_double(clause.attributes.items()) {
        return Ok(Err(ManifestKind::DoubleType));
    }
    match read_attributes(alloc, clause.attributes.items())? {
        Some(attributes) => Ok(Ok(attributes)),
        None => Ok(Err(ManifestKind::BadValue)),
    }
}

/// What a clause with these attributes offers in each of its namespaces, for which there is none yet.
fn capability(alloc: Global, attributes: Attributes) -> Result<Capability, AllocError>
    ensures provided { IfOk result (λ c. c ≡ provided_of attributes) }
{
    let uses = List::new(alloc)?;
    let mandatory = List::new(alloc)?;
    Ok(Capability {
        namespace: Text::empty(),
        name: Text::empty(),
        attributes: Shared::new(alloc, attributes)?,
        uses: Shared::new(alloc, uses)?,
        mandatory: Shared::new(alloc, mandatory)?,
    })
}

/// The clauses of Provide-Capability.
struct ProvidedCapabilities;

impl ClauseReader for ProvidedCapabilities {
    type Item = Capability;

    ghost faults = { provided_faults [] };

    ghost takes = { spec.takes_part };

    ghost makes = { IsProvided };

    ghost named = { provided_in };

    fn template(
        alloc: Global,
        clause: &Clause,
    ) -> Result<Result<Capability, ManifestKind>, AllocError> {
        if repeats(alloc, clause)? {
            return Ok(Err(ManifestKind::BadClause));
        }
        let attributes = match attributes(alloc, clause)? {
            Ok(attributes) => attributes,
            Err(kind) => return Ok(Err(kind)),
        };
        if has_reserved(clause.paths.items()) {
            return Ok(Err(ManifestKind::ReservedNamespace));
        }
        Ok(Ok(capability(alloc, attributes)?))
    }

    fn takes(clause: &Clause) -> bool {
        takes_part(clause)
    }

    fn named(alloc: Global, template: &Capability, path: &Text) -> Result<Capability, AllocError> {
        let mut capability = template.copy(alloc)?;
        capability.namespace = path.copy(alloc)?;
        capability.name = path.copy(alloc)?;
        Ok(capability)
    }
}

/// What the clauses of Provide-Capability that take part in resolving offer, or the first fault of the first faulty one.
pub fn provided_capabilities(
    alloc: Global,
    clauses: &[ClauseAt],
) -> Result<Result<List<Capability>, ClauseFault>, AllocError>
    ensures walked { IfOk result (Walked provided_faults AreProvided clauses.now) }
{
    members::<ProvidedCapabilities>(alloc, clauses)
}
