//! The first violated uses clause among some revisions.

ghost use Rattle.std.specs.Prelude.{◌≡◌, ◌<◌, ◌↔◌, ℕ, List, All, Contains, IfOk, IsTrue, MatchOption, length, map};
ghost use Rattle.std.specs.BTreeSet.{contains};
ghost use Rattle.std.specs.Option.{ForSome};
ghost use Rattle.std.specs.Ordering.{nat_cmp};
ghost use Rattle.osgi_base.specs.declared.ids.RevisionId.{RevisionId};
ghost use Rattle.osgi_space_sources.specs.declared.given.Given.{Given};
ghost use Rattle.osgi_space.specs.Violations.{IsFirstViolation};
ghost use Rattle.osgi_space.specs.computed.Firsts.{IsBefore, IsFirstClash, IsFirstImplied};
ghost use Rattle.osgi_space.specs.declared.violation.Violation.{Violation};
ghost use Rattle.osgi_space_rows.specs.Agree.{id};
ghost use Rattle.osgi_space_rows.specs.Names.{name_numbered};
ghost use Rattle.osgi_space_rows.specs.Worlds.{AreRowsIn};
ghost use Rattle.osgi_world.specs.Lists.{In};
ghost use Rattle.osgi_world.specs.declared.wiring.Wiring.{Wiring};

use crate::violation::Violation;
use osgi_base::{RevisionId, Text, rising};
use osgi_space_rows::{Names, WorldRows};
use osgi_space_sources::{Among, Given, clashes, constraints_of};
use std::alloc::{AllocError, Global};
use std::cmp::Ordering;
use std::collections::BTreeSet;

pub fn name_bytes<'n>(names: &'n Names, number: u32) -> &'n [u8]
    requires named { number < length names.now }
    ensures name { result.now ≡ name_numbered names.now number }
{
    match names.name(number) {
        Some(name) => name.bytes(),
        None => &[],
    }
}

/// Whether the first pair comes before the second: by the package's name, then by the revision that sees it.
fn is_before(names: &Names, first: Given, second: Given) -> bool
    requires first_named { first.package < length names.now }
    requires second_named { second.package < length names.now }
    ensures before { IsTrue result ↔ IsBefore names.now first second }
{
    let one = name_bytes(names, first.package);
    let other = name_bytes(names, second.package);
    match one.cmp(other) {
        Ordering::Less => true,
        Ordering::Equal => first.source < second.source,
        Ordering::Greater => false,
    }
}

/// Whether the pair comes before the one that is first so far.
fn is_earlier(names: &Names, pair: Given, first: Option<Given>) -> bool
    requires named { pair.package < length names.now }
    requires first_named { ForSome first (λ (f : Given). f.package < length names.now) }
    ensures earlier { IsTrue result
        ↔ MatchOption first (Unit {0}) (λ f. IsBefore names.now pair f) }
{
    match first {
        Some(first) => is_before(names, pair, first),
        None => true,
    }
}

/// The first of the pairs that clash with the revision, if one does.
fn first_clash(
    alloc: Global,
    rows: &WorldRows,
    revision: u32,
    pairs: &[Given],
) -> Result<Option<Given>, AllocError>
    requires named { All (λ (g : Given). g.package < length rows.now.names) pairs.now }
    ensures first { IfOk result (λ first.
        IsFirstClash rows.now.rows rows.now.names revision pairs.now first) }
{
    let mut first = None;
    for pair in pairs {
        if clashes(alloc, rows.rows(), revision, *pair)? && is_earlier(rows.names(), *pair, first) {
            first = Some(*pair);
        }
    }
    Ok(first)
}

/// The first violated constraint of the revision among the listed ones, as a pair.
fn first_of(
    alloc: Global,
    rows: &WorldRows,
    listed: &BTreeSet<u32>,
    revision: u32,
) -> Result<Option<Given>, AllocError>
    ensures first { IfOk result (λ first. IsFirstImplied rows.now.rows rows.now.names
        (λ r. IsTrue (contains nat_cmp listed.now r)) revision first) }
{
    let found = constraints_of(alloc, rows.rows(), Among::Listed(listed), revision)?;
    Ok(first_clash(alloc, rows, revision, found.items())?)
}

/// The numbers of the revisions.
fn numbers(alloc: Global, revisions: &[RevisionId]) -> Result<Vec<u32>, AllocError>
    ensures numbers { IfOk result (λ numbers.
        numbers.items ≡ map (λ (r : RevisionId). r.0) revisions.now) }
{
    revisions.iter().map(|revision| revision.0).collect(alloc)
}

fn listed(alloc: Global, numbers: &[u32]) -> Result<BTreeSet<u32>, AllocError>
    ensures listed { IfOk result (λ set. (n : ℕ) → IsTrue (contains nat_cmp set n)
        ↔ Contains numbers.now n) }
{
    let mut set = BTreeSet::new(alloc);
    for number in numbers {
        set.insert(*number)?;
    }
    Ok(set)
}

/// The violation of a pair.
fn violation_of(
    alloc: Global,
    names: &Names,
    revision: u32,
    pair: Given,
) -> Result<Violation, AllocError>
    requires named { pair.package < length names.now }
    ensures violation { IfOk result (λ v.
        v ≡ record {
          revision = id revision;
          seen_by = id pair.source;
          «package» = name_numbered names.now pair.package;
        }) }
{
    Ok(Violation {
        revision: RevisionId(revision),
        seen_by: RevisionId(pair.source),
        package: Text::of(alloc, name_bytes(names, pair.package))?,
    })
}

/// The first violated uses clause among these revisions, in the wirings whose rows these are: of the least revision, then of the
/// package that is first by its bytes, then as the least revision sees it.
pub fn first_violation(
    alloc: Global,
    rows: &WorldRows,
    among: &[RevisionId],
) -> Result<Option<Violation>, AllocError>
    ensures first { IfOk result (λ answer. (W : List Wiring) → AreRowsIn rows.now W
        → IsFirstViolation rows.now.known W (λ r. In r among.now) answer) }
{
    let numbers = rising(numbers(alloc, among)?);
    let listed = listed(alloc, numbers.as_slice())?;
    for number in &numbers {
        if let Some(pair) = first_of(alloc, rows, &listed, *number)? {
            return Ok(Some(violation_of(alloc, rows.names(), *number, pair)?));
        }
    }
    Ok(None)
}
