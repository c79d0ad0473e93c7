//! Packages by their names, and sources as revisions.

ghost use Rattle.std.specs.Prelude.{◌≡◌, ◌↔◌, Any, IfOk, map};
ghost use Rattle.std.specs.List.Sorted.{IsStrictlyIncreasing};
ghost use Rattle.osgi_base.specs.declared.ids.RevisionId.{RevisionId};
ghost use Rattle.osgi_space_rows.specs.Agree.{id};
ghost use Rattle.osgi_world.specs.Lists.{In};
ghost use Rattle.osgi_space_sources.specs.declared.given.Given.{Given};

use osgi_base::{List, RevisionId, rising};
use osgi_space_sources::Given;
use std::alloc::{AllocError, Global};

fn sources(alloc: Global, givens: &[Given]) -> Result<Vec<u32>, AllocError>
    ensures sources { IfOk result (λ numbers.
        numbers.items ≡ map (λ (g : Given). g.source) givens.now) }
{
    givens.iter().map(|given| given.source).collect(alloc)
}

/// The numbers as revisions.
pub fn as_ids(alloc: Global, numbers: &[u32]) -> Result<List<RevisionId>, AllocError>
    ensures ids { IfOk result (λ ids. ids ≡ map id numbers.now) }
{
    let mut ids = List::with_capacity(alloc, numbers.len())?;
    for number in numbers {
        ids.push(RevisionId(*number))?;
    }
    Ok(ids)
}

/// The sources as revisions, each once and rising.
pub fn source_ids(alloc: Global, givens: &[Given]) -> Result<List<RevisionId>, AllocError>
    ensures rising { IfOk result (λ ids. IsStrictlyIncreasing (map (λ (r : RevisionId). r.0) ids)) }
    ensures same { IfOk result (λ ids. (x : RevisionId) → In x ids
        ↔ Any (λ (g : Given). g.source ≡ x.0) givens.now) }
{
    let numbers = rising(sources(alloc, givens)?);
    Ok(as_ids(alloc, numbers.as_slice())?)
}
