//! Requirements that ask for the same: they have the same candidates.

ghost use Rattle.std.specs.Prelude.{◌≡◌, IfSome, IsTrue};
ghost use Rattle.osgi_world.specs.Candidates.{CanBeAsked, candidates};
ghost use Rattle.osgi_world.specs.declared.problem.Problem.{Problem};
ghost use Rattle.osgi_resolver_decisions.specs.computed.Known.{AreListsBefore, IsProblemIn};
ghost use Rattle.osgi_resolver_decisions.specs.computed.Same.{AskTheSame};

use crate::plain::can_be_asked;
use osgi_base::{ExactEq, Shared};
use osgi_candidates::Offers;
use osgi_lookup::{is_bundle, is_package};
use osgi_model::{Filter, Test};
use osgi_world::{CapRef, ReqRef, Requirement};

/// Whether both tests are the same. Where the answer is false, they may be so.
fn is_same_test(one: &Test, other: &Test) -> bool
    ensures same { IsTrue result → one.now ≡ other.now }
{
    match (one, other) {
        (Test::Equal(one), Test::Equal(other)) => one == other,
        (Test::Approx(one), Test::Approx(other)) => one == other,
        (Test::AtLeast(one), Test::AtLeast(other)) => one == other,
        (Test::AtMost(one), Test::AtMost(other)) => one == other,
        (Test::Present, Test::Present) => true,
        (Test::Pieces(ones), Test::Pieces(others)) => ones.is_same(others),
        _ => false,
    }
}

/// Whether both filters are the same. Where the answer is false, they may be so.
#[cycle(same)]
fn is_same_filter(one: &Filter, other: &Filter) -> bool
    ensures same { IsTrue result → one.now ≡ other.now }
{
    match (one, other) {
        (Filter::And(ones), Filter::And(others)) => are_same(ones.items(), others.items()),
        (Filter::Or(ones), Filter::Or(others)) => are_same(ones.items(), others.items()),
        (Filter::Not(one), Filter::Not(other)) => is_same_filter(one.get(), other.get()),
        (
            Filter::Item { name, test },
            Filter::Item {
                name: other_name,
                test: other_test,
            },
        ) => name == other_name && is_same_test(test, other_test),
        _ => false,
    }
}

/// Whether there are as many filters in one as in the other, and each is the same as that at its place. Where the answer is false,
/// they may be so.
#[cycle(same)]
fn are_same(ones: &[Filter], others: &[Filter]) -> bool
    ensures same { IsTrue result → ones.now ≡ others.now }
{
    let mut left = others;
    for one in ones {
        match left.split_first() {
            Some((other, rest)) if is_same_filter(one, other) => left = rest,
            _ => return false,
        }
    }
    left.is_empty()
}

/// Whether both are of one namespace, which is not that of bundles or packages, with one name and one filter. Where the answer is
/// false, they may ask for the same.
fn ask_the_same(one: &Requirement, other: &Requirement) -> bool
    ensures same { IsTrue result → AskTheSame one.now other.now }
{
    if !(one.namespace == other.namespace && one.name == other.name) {
        return false;
    }
    let namespace = one.namespace.bytes();
    if is_bundle(namespace) || is_package(namespace) {
        return false;
    }
    match (&one.filter, &other.filter) {
        (Some(one), Some(other)) => is_same_filter(one.get(), other.get()),
        (None, None) => true,
        _ => false,
    }
}

/// Whether the one is effective and asks for the same as the other, which has candidates to tell. Where the answer is false, their
/// candidates may be the same.
fn ask_alike(offers: &Offers, one: ReqRef, other: ReqRef) -> bool
    ensures same { IsTrue result → (P : Problem) → IsProblemIn offers.now P
        → CanBeAsked P.world.known one → CanBeAsked P.world.known other
        × (candidates P other ≡ candidates P one) }
{
    let known = offers.known();
    let Some(asking) = known.requirement(one) else {
        return false;
    };
    let Some(asked) = known.requirement(other) else {
        return false;
    };
    if !asking.effective {
        return false;
    }
    if !ask_the_same(asking, asked) {
        return false;
    }
    can_be_asked(known, other)
}

/// The list of the requirement before this one, if both ask for the same. The lists are those of the requirements before it.
pub fn list_before<'l>(
    offers: &Offers,
    requirement: ReqRef,
    before: &'l [Shared<Vec<CapRef>>],
) -> Option<&'l Shared<Vec<CapRef>>>
    requires before { AreListsBefore offers.now requirement before.now }
    ensures alike { IfSome result (λ list. (P : Problem) → IsProblemIn offers.now P
        → CanBeAsked P.world.known requirement → list.now.items ≡ candidates P requirement) }
{
    let index = requirement.index.checked_sub(1)?;
    let previous = ReqRef {
        owner: requirement.owner,
        index,
    };
    if !ask_alike(offers, requirement, previous) {
        return None;
    }
    before.get(index as usize)
}
