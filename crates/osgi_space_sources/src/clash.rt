//! Whether two revisions have different sources of a package.

ghost use Rattle.std.specs.Prelude.{◌↔◌, ◌≢◌, length, Contains, IfOk, IsTrue, MatchOption};
ghost use Rattle.osgi_space_sources.specs.computed.Adds.{AreExactly};
ghost use Rattle.osgi_space_sources.specs.computed.Clashes.{IsClash, IsOnlySource, Lacks};
ghost use Rattle.osgi_space_sources.specs.declared.given.Given.{Given};
ghost use Rattle.osgi_space_rows.specs.Rows.{imports_for};

use crate::found::{FEW, Found, is_listed};
use crate::given::Given;
use crate::package_sources::sources_of;
use osgi_space_rows::Rows;
use std::alloc::{AllocError, Global};

fn collect(alloc: Global, givens: &[Given]) -> Result<Found<Given>, AllocError>
    ensures same { IfOk result (AreExactly (Contains givens.now)) }
{
    let mut found = Found::new(alloc);
    for given in givens {
        found.add(*given)?;
    }
    Ok(found)
}

/// Whether one of the inner ones is not among the outer ones, which are looked through for each.
fn lacks_listed(outer: &[Given], inner: &[Given]) -> bool
    ensures lacks { IsTrue result ↔ Lacks outer.now inner.now }
{
    for given in inner {
        if !is_listed(outer, *given) {
            return true;
        }
    }
    false
}

/// Whether one of the inner ones is not among the outer ones.
fn lacks(alloc: Global, outer: &[Given], inner: &[Given]) -> Result<bool, AllocError>
    ensures lacks { IfOk result (λ answer. IsTrue answer ↔ Lacks outer.now inner.now) }
{
    if outer.len() <= FEW {
        return Ok(lacks_listed(outer, inner));
    }
    let found = collect(alloc, outer)?;
    for given in inner {
        if !found.has(*given) {
            return Ok(true);
        }
    }
    Ok(false)
}

/// Whether each of the two has a source that the other lacks, of all the sources that they have.
fn lists_clash(alloc: Global, rows: &Rows, revision: u32, pair: Given) -> Result<bool, AllocError>
    ensures clash { IfOk result (λ answer. IsTrue answer ↔ IsClash rows.now revision pair) }
{
    let ours = sources_of(alloc, rows, revision, pair.package)?;
    let theirs = sources_of(alloc, rows, pair.source, pair.package)?;
    if !lacks(alloc, theirs.as_slice(), ours.as_slice())? {
        return Ok(false);
    }
    Ok(lacks(alloc, ours.as_slice(), theirs.as_slice())?)
}

/// The only source of the package for a revision that has a single wire for it.
fn only_source(rows: &Rows, revision: u32, package: u32) -> Option<u32>
    ensures only { MatchOption result (length (imports_for rows.now revision «package») ≢ 1)
        (IsOnlySource rows.now revision «package») }
{
    let imports = rows.imports.of(revision, package);
    if imports.len() != 1 {
        return None;
    }
    Some(imports[0].provider)
}

/// Whether each of the revision, and the one that sees the package, has a source of it that the other lacks.
pub fn clashes(alloc: Global, rows: &Rows, revision: u32, pair: Given) -> Result<bool, AllocError>
    ensures clash { IfOk result (λ answer. IsTrue answer ↔ IsClash rows.now revision pair) }
{
    let Some(ours) = only_source(rows, revision, pair.package) else {
        return lists_clash(alloc, rows, revision, pair);
    };
    let Some(theirs) = only_source(rows, pair.source, pair.package) else {
        return lists_clash(alloc, rows, revision, pair);
    };
    Ok(ours != theirs)
}
