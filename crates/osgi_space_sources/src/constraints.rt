//! The constraints that the `uses` of exports imply.

ghost use Rattle.std.specs.Prelude.{◌↔◌, ℕ, IfOk, OnOk, IsTrue};
ghost use Rattle.osgi_space_sources.specs.computed.Adds.{Adds, AreExactly};
ghost use Rattle.osgi_space_sources.specs.computed.Amongst.{IsAmong};
ghost use Rattle.osgi_space_sources.specs.computed.Disputes.{AreDisputed, AreFollowed, IsNotedEnd};
ghost use Rattle.osgi_space_sources.specs.computed.Pairs.{IsFollowing, IsImplied, IsNext, IsOwnUse, IsUse, IsUseAmong, IsUseOfSome, IsUseOfWired, MayUse};
ghost use Rattle.osgi_space_sources.specs.computed.RowSources.{Sources};
ghost use Rattle.osgi_space_sources.specs.declared.given.Given.{Given};

use crate::among::Among;
use crate::disputed::Disputed;
use crate::found::Found;
use crate::given::Given;
use crate::package_sources::sources_of;
use crate::space::unwired_of;
use osgi_space_rows::{Import, Rows};
use std::alloc::{AllocError, Global};

/// Adds the packages that an owner's own exports of the package use, as the exporter sees them.
fn add_own_uses(
    found: &mut Found<Given>,
    rows: &Rows,
    exporter: u32,
    owner: u32,
    package: u32,
) -> Result<(), AllocError>
    ensures added { OnOk result (Adds (IsOwnUse rows.now exporter owner «package»)
        found.old found.new) }
{
    for row in rows.uses.of(owner, package) {
        found.add(Given {
            package: row.used,
            source: exporter,
        })?;
    }
    Ok(())
}

/// Adds the packages that the exporter's exports of the package use, as it sees them.
fn add_uses(
    found: &mut Found<Given>,
    rows: &Rows,
    exporter: u32,
    package: u32,
) -> Result<(), AllocError>
    ensures added { OnOk result (Adds (IsUse rows.now exporter «package») found.old found.new) }
{
    add_own_uses(found, rows, exporter, exporter, package)?;
    for row in rows.attached.of(exporter) {
        add_own_uses(found, rows, exporter, row.fragment, package)?;
    }
    Ok(())
}

/// Whether the exporter's exports of the package may use packages: its own do, or it has fragments, whose exports may.
pub(crate) fn may_use(rows: &Rows, exporter: u32, package: u32) -> bool
    ensures uses { IsTrue result ↔ MayUse rows.now exporter «package» }
{
    if !rows.uses.of(exporter, package).is_empty() {
        return true;
    }
    !rows.attached.of(exporter).is_empty()
}

/// Adds what the export of the package by its source uses, if constraints may come from the source.
fn add_uses_among(
    found: &mut Found<Given>,
    rows: &Rows,
    among: Among,
    given: Given,
) -> Result<(), AllocError>
    ensures added { OnOk result (Adds (IsUseAmong rows.now (IsAmong among.entry) given)
        found.old found.new) }
{
    if !may_use(rows, given.source, given.package) {
        return Ok(());
    }
    if !among.has(given.source) {
        return Ok(());
    }
    add_uses(found, rows, given.source, given.package)?;
    Ok(())
}

/// Adds what the exports of packages by their sources use, of the sources from which constraints may come.
fn add_uses_of_all(
    found: &mut Found<Given>,
    rows: &Rows,
    among: Among,
    givens: &[Given],
) -> Result<(), AllocError>
    ensures added { OnOk result (Adds (IsUseOfSome rows.now (IsAmong among.entry) givens.now)
        found.old found.new) }
{
    for given in givens {
        add_uses_among(found, rows, among, *given)?;
    }
    Ok(())
}

/// Adds what the exports by the providers of these wires use, of the providers from which constraints may come.
fn add_uses_of_imports(
    found: &mut Found<Given>,
    rows: &Rows,
    among: Among,
    imports: &[Import],
) -> Result<(), AllocError>
    ensures added { OnOk result (Adds (IsUseOfWired rows.now (IsAmong among.entry) imports.now)
        found.old found.new) }
{
    for row in imports {
        let given = Given {
            package: row.imported,
            source: row.provider,
        };
        add_uses_among(found, rows, among, given)?;
    }
    Ok(())
}

/// Adds the constraints that follow from one at once: what the exports of its package use, by its sources for the one that sees
/// it. Answers true only where the one that sees the package has a source of it.
fn add_next(
    alloc: Global,
    found: &mut Found<Given>,
    rows: &Rows,
    among: Among,
    pair: Given,
) -> Result<bool, AllocError>
    ensures added { OnOk result (Adds (IsNext rows.now (IsAmong among.entry) pair)
        found.old found.new) }
    ensures some { IfOk result (λ some. IsTrue some → (x : ℕ)
        × Sources rows.now pair.source pair.package x) }
{
    let imports = rows.imports.of(pair.source, pair.package);
    if !imports.is_empty() {
        add_uses_of_imports(found, rows, among, imports)?;
        return Ok(true);
    }
    let sources = sources_of(alloc, rows, pair.source, pair.package)?;
    add_uses_of_all(found, rows, among, sources.as_slice())?;
    Ok(!sources.as_slice().is_empty())
}

/// Adds the constraints that follow from one at once, unless its package was followed before. Followed are packages that are not
/// disputed, once all that the export by their only source uses was added.
fn follow(
    alloc: Global,
    found: &mut Found<Given>,
    followed: &mut Found<u32>,
    rows: &Rows,
    disputed: &Disputed,
    among: Among,
    pair: Given,
) -> Result<(), AllocError>
    requires disputed { AreDisputed rows.now disputed.now }
    requires end { IsNotedEnd disputed.now pair.source }
    requires followed { AreFollowed rows.now (IsAmong among) (IsNotedEnd disputed.now)
        followed.old found.old }
    ensures added { OnOk result (Adds (IsNext rows.now (IsAmong among.entry) pair)
        found.old found.new) }
    ensures followed { OnOk result (AreFollowed rows.now (IsAmong among.entry)
        (IsNotedEnd disputed.now) followed.new found.new) }
{
    if followed.has(pair.package) {
        return Ok(());
    }
    let some = add_next(alloc, found, rows, among, pair)?;
    if !some || disputed.has(pair.package) {
        return Ok(());
    }
    followed.add(pair.package)?;
    Ok(())
}

/// The constraints that these wires and these sources of packages imply, and those that follow from them.
pub fn constraints_from(
    alloc: Global,
    rows: &Rows,
    among: Among,
    imports: &[Import],
    givens: &[Given],
) -> Result<Found<Given>, AllocError>
    ensures following { IfOk result (AreExactly (IsFollowing rows.now (IsAmong among.entry)
        imports.now givens.now)) }
{
    let mut found = Found::new(alloc);
    add_uses_of_imports(&mut found, rows, among, imports)?;
    add_uses_of_all(&mut found, rows, among, givens)?;
    let mut next = 0;
    while next < found.len() {
        let pair = found.items()[next];
        add_next(alloc, &mut found, rows, among, pair)?;
        next += 1;
    }
    Ok(found)
}

/// The same, where ends of wires see these constraints. A package that is not disputed has one source for all of them, and is
/// followed once.
pub(crate) fn constraints_between(
    alloc: Global,
    rows: &Rows,
    disputed: &Disputed,
    among: Among,
    imports: &[Import],
    givens: &[Given],
) -> Result<Found<Given>, AllocError>
    requires disputed { AreDisputed rows.now disputed.now }
    requires ends { (g : Given) → IsFollowing rows.now (IsAmong among) imports.now givens.now g
        → IsNotedEnd disputed.now g.source }
    ensures following { IfOk result (AreExactly (IsFollowing rows.now (IsAmong among.entry)
        imports.now givens.now)) }
{
    let mut found = Found::new(alloc);
    let mut followed = Found::new(alloc);
    add_uses_of_imports(&mut found, rows, among, imports)?;
    add_uses_of_all(&mut found, rows, among, givens)?;
    let mut next = 0;
    while next < found.len() {
        let pair = found.items()[next];
        follow(
            alloc,
            &mut found,
            &mut followed,
            rows,
            disputed,
            among,
            pair,
        )?;
        next += 1;
    }
    Ok(found)
}

/// The constraints of the revision: the packages, each with the revision that sees it.
pub fn constraints_of(
    alloc: Global,
    rows: &Rows,
    among: Among,
    revision: u32,
) -> Result<Found<Given>, AllocError>
    ensures implied { IfOk result (AreExactly (IsImplied rows.now (IsAmong among.entry) revision)) }
{
    if !among.has(revision) {
        return Ok(Found::new(alloc));
    }
    let givens = unwired_of(alloc, rows, revision)?;
    let imports = rows.imports.of_revision(revision);
    Ok(constraints_from(alloc, rows, among, imports, givens.as_slice())?)
}
