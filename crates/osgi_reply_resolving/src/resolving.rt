//! What a resolve answers, and changes in the wirings and in the table of bundles.

ghost use Rattle.std.specs.Prelude.{ℕ, ◌≡◌, ◌-◌, ◌^◌, ◌<◌, ◌||◌, All, IfOk, OnOk, map};
ghost use Rattle.std.specs.BTreeSet.{contains, IsOrdered};
ghost use Rattle.std.specs.List.{list_any};
ghost use Rattle.std.specs.Option.{option_copied};
ghost use Rattle.std.specs.Ordering.{nat_cmp};
ghost use Rattle.osgi_bundle.specs.Rows.{AreInOrder, IsSettable};
ghost use Rattle.osgi_ops.specs.declared.op.Op.TheVariants as op;
ghost use Rattle.osgi_ops.specs.declared.reply.Reply.TheVariants as answer;
ghost use Rattle.osgi_wiring.specs.States.{IsKeptWorld};
ghost use Rattle.osgi_world.specs.Lookups.{requirement_at, requirement_count};
ghost use Rattle.osgi_tables.specs.Replied.{HasRoom};
ghost use Rattle.osgi_tables.specs.Changes.{IsReplyAndChangeToAll};
ghost use Rattle.osgi_reply_resolving.specs.computed.Searched.{IsAsked, IsSaid, IsTargetOf, IsThere, bundle_by, bundle_of, is_by, is_by_wiring, is_installed, is_own, listed};

use osgi_base::{BundleId, List, RevisionId};
use osgi_bundle::Table;
use osgi_ops::{INSTALLED, Refusal, Reply, Unmet};
use osgi_resolver::{Answer, Cause};
use osgi_tables::{Change, Tables};
use osgi_wiring::Wirings;
use osgi_world::{Known, ReqRef, Requirement, Wiring};
use std::alloc::{AllocError, Global};
use std::collections::BTreeSet;

/// What a resolve of a bundle is about.
#[derive(Clone, Copy, PartialEq, Eq)]
pub enum ResolveTarget {
    /// The bundle is not there.
    Missing,
    /// It is a fragment, which is only attached to a host that is being resolved.
    Fragment,
    /// It is resolved already.
    Resolved,
    /// This revision of it is to be resolved.
    Root(RevisionId),
}

fn target_of(wirings: &Wirings, bundle: BundleId) -> ResolveTarget
    ensures target { IsTargetOf wirings.now.world bundle result }
{
    let Some(known) = wirings.current(bundle) else {
        return ResolveTarget::Missing;
    };
    if known.revision.get().host.is_some() {
        return ResolveTarget::Fragment;
    }
    if wirings.wiring(known.id).is_some() {
        return ResolveTarget::Resolved;
    }
    ResolveTarget::Root(known.id)
}

// ---- the bundles that become resolved

/// Whether what is known of a revision is what its bundle has as its current one.
fn is_own(wirings: &Wirings, known: &Known) -> bool
    ensures own { result ≡ is_own wirings.now.world known.now }
{
    match wirings.current(known.bundle) {
        Some(current) => current.id.0 == known.id.0,
        None => false,
    }
}

/// Whether the table has a bundle as installed, and not resolved.
fn is_installed(bundles: &Table, bundle: BundleId) -> bool
    ensures installed { result ≡ is_installed bundles.now bundle }
{
    match bundles.state(bundle) {
        Some(state) => state == INSTALLED,
        None => false,
    }
}

/// The bundle that becomes resolved where a revision comes into use: it is installed, and the revision is its current one.
fn bundle_by(wirings: &Wirings, bundles: &Table, revision: RevisionId) -> Option<BundleId>
    ensures bundle { result ≡ bundle_by wirings.now.world bundles.now revision }
{
    let known = wirings.known(revision)?;
    if is_own(wirings, known) && is_installed(bundles, known.bundle) {
        Some(known.bundle)
    } else {
        None
    }
}

/// Notes the bundle that becomes resolved where a revision comes into use.
fn note_revision(
    wirings: &Wirings,
    bundles: &Table,
    revision: RevisionId,
    numbers: &mut BTreeSet<u32>,
) -> Result<(), AllocError>
    ensures noted { OnOk result
        ((n : ℕ)
        → contains nat_cmp numbers.new n
        ≡
        (contains nat_cmp numbers.old n || is_by wirings.now.world bundles.now n
        revision)) }
{
    if let Some(bundle) = bundle_by(wirings, bundles, revision) {
        numbers.insert(bundle.0)?;
    }
    Ok(())
}

/// Notes the bundles that become resolved where fragments come into use.
fn note_fragments(
    wirings: &Wirings,
    bundles: &Table,
    fragments: &[RevisionId],
    numbers: &mut BTreeSet<u32>,
) -> Result<(), AllocError>
    ensures noted { OnOk result
        ((n : ℕ)
        → contains nat_cmp numbers.new n
        ≡
        (contains nat_cmp numbers.old n || list_any
        (is_by wirings.now.world bundles.now n) fragments.now)) }
{
    for fragment in fragments {
        note_revision(wirings, bundles, *fragment, numbers)?;
    }
    Ok(())
}

/// Notes the bundles that become resolved where a wiring is added: that of its revision, and those of its fragments.
fn note_wiring(
    wirings: &Wirings,
    bundles: &Table,
    wiring: &Wiring,
    numbers: &mut BTreeSet<u32>,
) -> Result<(), AllocError>
    ensures noted { OnOk result
        ((n : ℕ)
        → contains nat_cmp numbers.new n
        ≡
        (contains nat_cmp numbers.old n || is_by_wiring wirings.now.world bundles.now n
        wiring.now)) }
{
    note_revision(wirings, bundles, wiring.revision, numbers)?;
    note_fragments(wirings, bundles, wiring.fragments.items(), numbers)
}

/// The numbers of the bundles that become resolved by wirings that are added.
fn numbers_by(
    alloc: Global,
    wirings: &Wirings,
    bundles: &Table,
    added: &[Wiring],
) -> Result<BTreeSet<u32>, AllocError>
    ensures numbers { IfOk result (λ numbers.
        (n : ℕ)
        → contains nat_cmp numbers n
        ≡ list_any (is_by_wiring wirings.now.world bundles.now n) added.now) }
{
    let mut numbers = BTreeSet::new(alloc);
    for wiring in added {
        note_wiring(wirings, bundles, wiring, &mut numbers)?;
    }
    Ok(numbers)
}

/// The numbers as bundles.
fn as_bundles(alloc: Global, numbers: &[u32]) -> Result<List<BundleId>, AllocError>
    ensures bundles { IfOk result (λ list. list ≡ map bundle_of numbers.now) }
{
    let mut bundles = List::with_capacity(alloc, numbers.len())?;
    for number in numbers {
        bundles.push(BundleId(*number))?;
    }
    Ok(bundles)
}

/// Bundles by their numbers, rising.
fn in_order(alloc: Global, numbers: &BTreeSet<u32>) -> Result<List<BundleId>, AllocError>
    ensures bundles { IfOk result (λ list. list ≡ map bundle_of numbers.now.keys) }
    ensures ordered { IsOrdered nat_cmp numbers.now }
{
    let rising: Vec<u32> = numbers.iter().copied().collect(alloc)?;
    Ok(as_bundles(alloc, rising.as_slice())?)
}

/// The bundles that become resolved by wirings that are added, rising.
fn newly_resolved(
    alloc: Global,
    wirings: &Wirings,
    bundles: &Table,
    added: &[Wiring],
) -> Result<List<BundleId>, AllocError>
    requires holds { IsKeptWorld wirings.now.world wirings.now.issued }
    ensures listed { IfOk result (λ list.
        list ≡ listed wirings.now.world added.now bundles.now.rows) }
    ensures settable { IfOk result (All (λ b. IsSettable b bundles.now.rows)) }
    ensures in_order { AreInOrder bundles.now }
{
    // That the rows stand in order is said where they are asked for.
    let _ = bundles.rows();
    let numbers = numbers_by(alloc, wirings, bundles, added)?;
    in_order(alloc, &numbers)
}

/// The reply of a resolve that found wirings, and the change.
fn accept(
    alloc: Global,
    bundles: &Table,
    wirings: &Wirings,
    added: List<Wiring>,
) -> Result<(Reply, Change), AllocError>
    requires holds { IsKeptWorld wirings.now.world wirings.now.issued }
    ensures reply { IfOk result (λ r.
        r.0 ≡ answer.Resolved (listed wirings.now.world added bundles.now.rows)) }
    ensures change { IfOk result (λ r.
        r.1 ≡ Change.Resolve added (listed wirings.now.world added bundles.now.rows)) }
    ensures settable { OnOk result
        (All (λ b. IsSettable b bundles.now.rows)
        (listed wirings.now.world added bundles.now.rows)) }
    ensures in_order { OnOk result (AreInOrder bundles.now) }
{
    let resolved = newly_resolved(alloc, wirings, bundles, added.items())?;
    let reply = Reply::Resolved {
        added: resolved.copy(alloc)?,
    };
    Ok((reply, Change::Resolve { added, resolved }))
}

// ---- why a bundle cannot be resolved

/// The requirement at a place of its owner's own list.
fn requirement(wirings: &Wirings, place: ReqRef) -> Option<&Requirement>
    requires there { place.index < requirement_count wirings.now.world.known place.owner }
    ensures requirement { option_copied result ≡ requirement_at wirings.now.world.known place }
{
    let known = wirings.known(place.owner)?;
    known
        .revision
        .get()
        .requirements
        .items()
        .get(place.index as usize)
}

/// The cause in the words of a refusal.
fn unmet(alloc: Global, wirings: &Wirings, cause: Cause) -> Result<Unmet, AllocError>
    requires there { IsThere wirings.now.world.known cause }
    ensures said { IfOk result (IsSaid wirings.now.world.known cause) }
{
    let Cause::NoCandidate(place) = cause else {
        return Ok(Unmet::Clash);
    };
    let Some(requirement) = requirement(wirings, place) else {
        unreachable!()
    };
    Ok(Unmet::NoCandidate {
        namespace: requirement.namespace.copy(alloc)?,
        name: requirement.name.copy(alloc)?,
    })
}

// ---- the search

/// Resolves a revision that is not in force.
fn search(
    alloc: Global,
    tables: &mut Tables,
    bundle: BundleId,
    root: RevisionId,
) -> Result<(Reply, Change), AllocError>
    requires asked { IsAsked tables.old.wirings.world bundle root }
    requires holds { IsKeptWorld tables.old.wirings.world tables.old.wirings.issued }
    requires budget { tables.old.budget < 2 ^ 64 - 1 }
    ensures decided { IfOk result (λ r.
        IsReplyAndChangeToAll (op.Resolve bundle) tables.old r.0 r.1) }
    ensures unchanged { tables.new ≡ tables.old }
{
    match tables.wirings.resolve(root, tables.budget)? {
        Answer::Found { word: _, added } => {
            accept(alloc, &tables.bundles, tables.wirings.wirings(), added)
        }
        Answer::NoWord(cause) => {
            let cause = unmet(alloc, tables.wirings.wirings(), cause)?;
            let refusal = Refusal::Unresolvable { cause };
            Ok((Reply::Refused { refusal }, Change::Nothing))
        }
        Answer::Spent { visited } => {
            let refusal = Refusal::BudgetSpent { visited };
            Ok((Reply::Refused { refusal }, Change::Nothing))
        }
    }
}

/// Resolves a bundle, with those that it needs.
pub fn resolve(
    alloc: Global,
    tables: &mut Tables,
    bundle: BundleId,
) -> Result<(Reply, Change), AllocError>
    requires room { HasRoom tables.old }
    ensures decided { IfOk result (λ r.
        IsReplyAndChangeToAll (op.Resolve bundle) tables.old r.0 r.1) }
    ensures unchanged { tables.new ≡ tables.old }
{
    match target_of(tables.wirings.wirings(), bundle) {
        ResolveTarget::Missing => {
            let refusal = Refusal::NoSuchBundle;
            Ok((Reply::Refused { refusal }, Change::Nothing))
        }
        ResolveTarget::Fragment => {
            let refusal = Refusal::InvalidOperation;
            Ok((Reply::Refused { refusal }, Change::Nothing))
        }
        ResolveTarget::Resolved => {
            let added = List::from(Vec::new(alloc));
            Ok((Reply::Resolved { added }, Change::Nothing))
        }
        ResolveTarget::Root(root) => search(alloc, tables, bundle, root),
    }
}
