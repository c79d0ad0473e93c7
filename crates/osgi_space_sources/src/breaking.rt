//! Whether one of many revisions violates a constraint.

ghost use Rattle.std.specs.Prelude.{◌≡◌, ◌↔◌, ◌⊎◌, ℕ, Any, Contains, IfOk, OnOk, IsTrue};
ghost use Rattle.osgi_space_sources.specs.computed.Amongst.{IsAmong};
ghost use Rattle.osgi_space_sources.specs.computed.Clashes.{BreaksUses};
ghost use Rattle.osgi_space_sources.specs.computed.Disputes.{AreDisputed, IsDisputed};
ghost use Rattle.osgi_space_sources.specs.computed.Givens.{IsSeen};
ghost use Rattle.osgi_space_sources.specs.computed.Leads.{AreLeads, Agrees, IsUnder, KeepsAll, StartsWith};
ghost use Rattle.osgi_space_sources.specs.declared.given.Given.{Given};

use crate::among::Among;
use crate::constraints::may_use;
use crate::disputed::Disputed;
use crate::found::{Found, is_listed};
use crate::given::Given;
use crate::leads::leads_of;
use crate::package_sources::sources_of;
use crate::space::space_of;
use crate::uses::{has_disputed, has_wires, keeps_uses};
use osgi_space_rows::{Grouped, Rows};
use std::alloc::{AllocError, Global};

/// More revisions than so many are asked together. Of fewer each is asked by itself, which ends with the first that violates a
/// constraint.
const MANY: usize = 64;

/// So many revisions for each disputed package are asked together, since a lead takes the time of a constraint.
const ENOUGH: usize = 4;

// ---- the exports that revisions see

/// Adds the source's export of the package, if constraints may come from it and it may use packages.
fn add_start(
    found: &mut Found<Given>,
    rows: &Rows,
    among: Among,
    given: Given,
) -> Result<(), AllocError>
    ensures kept { OnOk result (KeepsAll found.old found.new) }
    ensures added { OnOk result (StartsWith rows.now (IsAmong among.entry) found.new given) }
{
    if !may_use(rows, given.source, given.package) {
        return Ok(());
    }
    if !among.has(given.source) {
        return Ok(());
    }
    found.add(given)?;
    Ok(())
}

fn add_all(
    found: &mut Found<Given>,
    rows: &Rows,
    among: Among,
    givens: &[Given],
) -> Result<(), AllocError>
    ensures kept { OnOk result (KeepsAll found.old found.new) }
    ensures added { OnOk result ((h : Given) → Contains givens.now h
        → StartsWith rows.now (IsAmong among.entry) found.new h) }
{
    for given in givens {
        add_start(found, rows, among, *given)?;
    }
    Ok(())
}

/// Adds the exports that the revision sees.
fn add_seen(
    alloc: Global,
    found: &mut Found<Given>,
    rows: &Rows,
    among: Among,
    revision: u32,
) -> Result<(), AllocError>
    ensures kept { OnOk result (KeepsAll found.old found.new) }
    ensures added { OnOk result ((h : Given) → IsSeen rows.now revision h
        → StartsWith rows.now (IsAmong among.entry) found.new h) }
{
    let givens = space_of(alloc, rows, revision)?;
    add_all(found, rows, among, givens.as_slice())?;
    Ok(())
}

/// The exports that these revisions see, from which constraints may come.
fn starts_of(
    alloc: Global,
    rows: &Rows,
    among: Among,
    revisions: &[u32],
) -> Result<Found<Given>, AllocError>
    ensures starts { IfOk result (λ found. (n : ℕ) (h : Given) → Contains revisions.now n
        → IsSeen rows.now n h → StartsWith rows.now (IsAmong among.entry) found h) }
{
    let mut found = Found::new(alloc);
    for revision in revisions {
        add_seen(alloc, &mut found, rows, among, *revision)?;
    }
    Ok(found)
}

// ---- one revision

/// Adds what stands under the export.
fn add_leads(
    found: &mut Found<Given>,
    leads: &Grouped<Given, Given>,
    export: Given,
) -> Result<(), AllocError>
    ensures kept { OnOk result (KeepsAll found.old found.new) }
    ensures added { OnOk result ((s : Given) → IsUnder leads.now export s → Contains found.new s) }
{
    for source in leads.of(&export) {
        found.add(*source)?;
    }
    Ok(())
}

/// What stands under these exports.
fn leads_under(
    alloc: Global,
    leads: &Grouped<Given, Given>,
    exports: &[Given],
) -> Result<Found<Given>, AllocError>
    ensures leads { IfOk result (λ found. (h s : Given) → Contains exports.now h
        → IsUnder leads.now h s → Contains found s) }
{
    let mut found = Found::new(alloc);
    for export in exports {
        add_leads(&mut found, leads, *export)?;
    }
    Ok(found)
}

/// Whether it is a source of its package for the revision, or the package has none for it. Where the answer is false, that need not
/// be so.
fn agrees(alloc: Global, rows: &Rows, revision: u32, source: Given) -> Result<bool, AllocError>
    ensures agrees { IfOk result (λ answer. IsTrue answer → Agrees rows.now revision source) }
{
    let found = sources_of(alloc, rows, revision, source.package)?;
    let sources = found.as_slice();
    if sources.is_empty() {
        return Ok(true);
    }
    Ok(is_listed(sources, source))
}

/// Whether it is so with all of these. Where the answer is false, that need not be so.
fn all_agree(
    alloc: Global,
    rows: &Rows,
    revision: u32,
    sources: &[Given],
) -> Result<bool, AllocError>
    ensures agree { IfOk result (λ answer. IsTrue answer → (s : Given) → Contains sources.now s
        → Agrees rows.now revision s) }
{
    for source in sources {
        if !agrees(alloc, rows, revision, *source)? {
            return Ok(false);
        }
    }
    Ok(true)
}

/// Whether the revision has all sources to which the exports that it sees lead, or none of their packages. Then it violates no
/// constraint.
fn plainly_keeps_uses(
    alloc: Global,
    rows: &Rows,
    leads: &Grouped<Given, Given>,
    revision: u32,
) -> Result<bool, AllocError>
    ensures keeps { IfOk result (λ answer. IsTrue answer → (h s : Given)
        → IsSeen rows.now revision h → IsUnder leads.now h s → Agrees rows.now revision s) }
{
    let givens = space_of(alloc, rows, revision)?;
    let sources = leads_under(alloc, leads, givens.as_slice())?;
    Ok(all_agree(alloc, rows, revision, sources.items())?)
}

/// Whether the revision has a violated constraint that comes from these revisions alone.
fn breaks_uses(
    alloc: Global,
    rows: &Rows,
    disputed: &Disputed,
    among: Among,
    revision: u32,
) -> Result<bool, AllocError>
    requires disputed { AreDisputed rows.now disputed.now }
    ensures breaks { IfOk result (λ answer. IsTrue answer
        ↔ BreaksUses rows.now (IsAmong among.entry) revision) }
{
    Ok(!keeps_uses(alloc, rows, disputed, among, revision)?)
}

/// The same by what exports lead to.
fn breaks_uses_by(
    alloc: Global,
    rows: &Rows,
    disputed: &Disputed,
    among: Among,
    leads: &Grouped<Given, Given>,
    revision: u32,
) -> Result<bool, AllocError>
    requires disputed { AreDisputed rows.now disputed.now }
    requires leads { AreLeads rows.now (IsAmong among) (IsDisputed disputed.now)
        leads.now revision }
    ensures breaks { IfOk result (λ answer. IsTrue answer
        ↔ BreaksUses rows.now (IsAmong among.entry) revision) }
{
    if plainly_keeps_uses(alloc, rows, leads, revision)? {
        return Ok(false);
    }
    breaks_uses(alloc, rows, disputed, among, revision)
}

// ---- whom to ask

/// Whether the revision may violate a constraint that comes from these revisions alone: it is one of them, has a wire, and sees a
/// disputed package. Without wires it has all packages from itself.
fn may_break(
    alloc: Global,
    rows: &Rows,
    disputed: &Disputed,
    among: Among,
    revision: u32,
) -> Result<bool, AllocError>
    requires disputed { AreDisputed rows.now disputed.now }
    ensures may { IfOk result (λ answer. BreaksUses rows.now (IsAmong among.entry) revision
        → IsTrue answer) }
{
    if !among.has(revision) {
        return Ok(false);
    }
    if !has_wires(rows, revision) {
        return Ok(false);
    }
    let givens = space_of(alloc, rows, revision)?;
    Ok(has_disputed(givens.as_slice(), disputed))
}

/// Adds the revision, if it may.
fn add_that(list: &mut Vec<u32>, may: bool, revision: u32) -> Result<(), AllocError>
    ensures those { OnOk result ((n : ℕ) → Contains list.new.items n → Contains list.old.items n
        ⊎ (n ≡ revision)) }
    ensures kept { OnOk result ((n : ℕ) → Contains list.old.items n → Contains list.new.items n) }
    ensures added { OnOk result (IsTrue may → Contains list.new.items revision) }
{
    if !may {
        return Ok(());
    }
    list.push(revision)?;
    Ok(())
}

/// Those of the revisions that may violate a constraint.
fn those_to_ask(
    alloc: Global,
    rows: &Rows,
    disputed: &Disputed,
    among: Among,
    revisions: &[u32],
) -> Result<Vec<u32>, AllocError>
    requires disputed { AreDisputed rows.now disputed.now }
    ensures those { IfOk result (λ list. (n : ℕ) → Contains list.items n
        → Contains revisions.now n) }
    ensures all { IfOk result (λ list. (n : ℕ) → Contains revisions.now n
        → BreaksUses rows.now (IsAmong among.entry) n → Contains list.items n) }
{
    let mut list = Vec::new(alloc);
    for revision in revisions {
        let may = may_break(alloc, rows, disputed, among, *revision)?;
        add_that(&mut list, may, *revision)?;
    }
    Ok(list)
}

// ---- all of them

fn one_breaks_alone(
    alloc: Global,
    rows: &Rows,
    disputed: &Disputed,
    among: Among,
    revisions: &[u32],
) -> Result<bool, AllocError>
    requires disputed { AreDisputed rows.now disputed.now }
    ensures breaks { IfOk result (λ answer. IsTrue answer
        ↔ Any (BreaksUses rows.now (IsAmong among.entry)) revisions.now) }
{
    for revision in revisions {
        if breaks_uses(alloc, rows, disputed, among, *revision)? {
            return Ok(true);
        }
    }
    Ok(false)
}

fn one_breaks_by(
    alloc: Global,
    rows: &Rows,
    disputed: &Disputed,
    among: Among,
    leads: &Grouped<Given, Given>,
    revisions: &[u32],
) -> Result<bool, AllocError>
    requires disputed { AreDisputed rows.now disputed.now }
    requires leads { (n : ℕ) → Contains revisions.now n
        → AreLeads rows.now (IsAmong among) (IsDisputed disputed.now) leads.now n }
    ensures breaks { IfOk result (λ answer. IsTrue answer
        ↔ Any (BreaksUses rows.now (IsAmong among.entry)) revisions.now) }
{
    for revision in revisions {
        if breaks_uses_by(alloc, rows, disputed, among, leads, *revision)? {
            return Ok(true);
        }
    }
    Ok(false)
}

/// The same; what the exports that they see lead to is found once for all of them.
fn one_breaks_together(
    alloc: Global,
    rows: &Rows,
    disputed: &Disputed,
    among: Among,
    revisions: &[u32],
) -> Result<bool, AllocError>
    requires disputed { AreDisputed rows.now disputed.now }
    ensures breaks { IfOk result (λ answer. IsTrue answer
        ↔ Any (BreaksUses rows.now (IsAmong among.entry)) revisions.now) }
{
    let starts = starts_of(alloc, rows, among, revisions)?;
    let Some(leads) = leads_of(alloc, rows, disputed, among, starts)? else {
        return one_breaks_alone(alloc, rows, disputed, among, revisions);
    };
    one_breaks_by(alloc, rows, disputed, among, &leads, revisions)
}

/// Whether so many revisions are asked one by one, where so many packages are disputed. What it answers decides only how fast they
/// are asked.
fn are_asked_alone(disputed: usize, revisions: usize) -> bool {
    disputed == 0 || revisions <= MANY || disputed > revisions / ENOUGH
}

/// Whether one of the revisions has a violated constraint that comes from the revisions of `among` alone. Many, for few disputed
/// packages, are asked together.
pub fn one_breaks_uses(
    alloc: Global,
    rows: &Rows,
    disputed: &Disputed,
    among: Among,
    revisions: &[u32],
) -> Result<bool, AllocError>
    requires disputed { AreDisputed rows.now disputed.now }
    ensures breaks { IfOk result (λ answer. IsTrue answer
        ↔ Any (BreaksUses rows.now (IsAmong among.entry)) revisions.now) }
{
    if are_asked_alone(disputed.len(), revisions.len()) {
        return one_breaks_alone(alloc, rows, disputed, among, revisions);
    }
    let asked = those_to_ask(alloc, rows, disputed, among, revisions)?;
    Ok(one_breaks_together(alloc, rows, disputed, among, asked.as_slice())?)
}
