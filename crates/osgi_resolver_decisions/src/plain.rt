//! Imports that ask for a package and for nothing else: those of one package have the same candidates.

ghost use Rattle.std.specs.Prelude.{◌≡◌, IsTrue};
ghost use Rattle.osgi_world.specs.Candidates.{CanBeAsked, candidates};
ghost use Rattle.osgi_world.specs.declared.problem.Problem.{Problem};
ghost use Rattle.osgi_resolver_decisions.specs.computed.Known.{IsProblemIn};
ghost use Rattle.osgi_resolver_decisions.specs.computed.Plain.{IsPlain, IsPlainFor};

use osgi_base::{RevisionId, Text};
use osgi_candidates::Offers;
use osgi_lookup::{KnownIndex, is_package};
use osgi_world::{ReqRef, Requirement};
use std::alloc::{AllocError, Global};
use std::collections::BTreeMap;

/// Whether the requirement is an import that takes any version of its package, from anybody.
fn is_plain(requirement: &Requirement) -> bool
    ensures plain { IsTrue result → IsPlain requirement.now }
{
    if !is_package(requirement.namespace.bytes()) {
        return false;
    }
    if requirement.from_name.is_some() {
        return false;
    }
    if !requirement.range.is_at_least_zero() {
        return false;
    }
    if !requirement.from_range.is_at_least_zero() {
        return false;
    }
    requirement.equal.get().items().is_empty()
}

/// Whether such an import of the package stands at the place.
fn is_plain_for(known: &KnownIndex, at: ReqRef, name: &Text) -> bool
    ensures plain { IsTrue result → IsPlainFor known.now at name.now }
{
    let Some(requirement) = known.requirement(at) else {
        return false;
    };
    if !(requirement.name == *name) {
        return false;
    }
    is_plain(requirement)
}

/// Whether it is an effective requirement of a current revision.
pub fn can_be_asked(known: &KnownIndex, at: ReqRef) -> bool
    ensures can { IsTrue result → CanBeAsked known.now at }
{
    known.is_current(at.owner)
        && (at.index as usize) < known.requirement_count(at.owner)
        && known.is_effective(at)
}

/// Whether both are such imports of the package, and the other one has candidates to tell.
pub fn are_alike(offers: &Offers, one: ReqRef, other: ReqRef, name: &Text) -> bool
    ensures same { IsTrue result → (P : Problem) → IsProblemIn offers.now P
        → CanBeAsked P.world.known one → CanBeAsked P.world.known other
        × (candidates P other ≡ candidates P one) }
{
    let known = offers.known();
    if !can_be_asked(known, other) {
        return false;
    }
    if !is_plain_for(known, one, name) {
        return false;
    }
    is_plain_for(known, other, name)
}

/// Adds an import by the name of its package, if it is such a one and the first. What is added decides only how fast lists are found.
fn add_plain(
    alloc: Global,
    plain: &mut BTreeMap<Text, ReqRef>,
    offers: &Offers,
    at: ReqRef,
) -> Result<(), AllocError> {
    let Some(requirement) = offers.known().requirement(at) else {
        return Ok(());
    };
    if is_plain(requirement) && !plain.contains_key(&requirement.name) {
        plain.insert(requirement.name.copy(alloc)?, at)?;
    }
    Ok(())
}

/// Adds those of the owner's imports that are such ones and the first.
pub fn add_plain_of(
    alloc: Global,
    plain: &mut BTreeMap<Text, ReqRef>,
    offers: &Offers,
    owner: RevisionId,
) -> Result<(), AllocError> {
    for index in 0..offers.known().requirement_count(owner) {
        let at = ReqRef {
            owner,
            index: index as u32,
        };
        add_plain(alloc, plain, offers, at)?;
    }
    Ok(())
}
