//! What is asked of services that are looked for, and the services of a class.

ghost use Rattle.std.specs.Prelude.{◌≡◌, ℕ, List, Bool, true, Some, All, IfOk, OnOk, filter, map};
ghost use Rattle.std.specs.Bool.{Decides, OnTrue};
ghost use Rattle.std.specs.List.{list_all};
ghost use Rattle.std.specs.List.Sorted.{IsStrictlySortedBy};
ghost use Rattle.std.specs.Option.{option_copied};
ghost use Rattle.osgi_base.specs.declared.ids.BundleId.{BundleId};
ghost use Rattle.osgi_ops.specs.Assignable.{IsAssignable};
ghost use Rattle.osgi_ops.specs.Classes.{ids_of};
ghost use Rattle.osgi_registry.specs.computed.Finding as spec;
ghost use Rattle.osgi_registry_index.specs.Places.{place_cmp, service_at};
ghost use Rattle.osgi_registry.specs.computed.LiveSlots.{AreCurrent, services_at};
ghost use Rattle.osgi_registry_index.specs.Slots.{slots_in};

use crate::assignability::Assignability;
use crate::live::Live;
use crate::service_test::ServiceTest;
use osgi_base::{BundleId, List, ServiceId, Text};
use osgi_filter::{Case, matches};
use osgi_model::Filter;
use osgi_ops::Service;
use osgi_registry_index::Place;
use std::alloc::{AllocError, Global};
use std::collections::BTreeSet;
use std::convert::Infallible;

/// Whether the filter, if there is one, matches the service's properties.
pub fn does_fit(filter: Option<&Filter>, service: &Service) -> bool
    ensures fits { result ≡ spec.does_fit (option_copied filter.entry) service.now }
{
    match filter {
        Some(filter) => matches(filter, &service.properties, Case::Fold),
        None => true,
    }
}

/// Whether the service is assignable for each of its classes.
fn is_assignable<F: Fn(BundleId, &Text) -> bool + Drop>(service: &Service, assignable: &F) -> bool
    requires callable { F.IsAlwaysCallable assignable.now }
    ensures assignable { (test : BundleId → List ℕ → Bool)
        →
        ((owner : BundleId) (class : _) (answer : Bool)
        → F.post assignable.now owner class answer
        → answer ≡ test owner class.now)
        → result ≡ list_all (test service.now.owner) service.now.classes }
{
    for class in service.classes.items() {
        if !assignable(service.owner, class) {
            return false;
        }
    }
    true
}

/// Whether the service fits the filter and is assignable for each of its classes.
fn is_open<F: Fn(BundleId, &Text) -> bool + Drop>(
    service: &Service,
    filter: Option<&Filter>,
    assignable: &F,
) -> bool
    requires callable { F.IsAlwaysCallable assignable.now }
    ensures open { (test : BundleId → List ℕ → Bool)
        →
        ((owner : BundleId) (class : _) (answer : Bool)
        → F.post assignable.now owner class answer
        → answer ≡ test owner class.now)
        → result ≡ spec.is_open test (option_copied filter.entry) service.now }
    ensures fits { OnTrue result (spec.does_fit (option_copied filter.entry) service.now ≡ true) }
{
    does_fit(filter, service) && is_assignable(service, assignable)
}

/// The test of services that fit the filter, and that are assignable for each of their classes as a closure says.
#[derive(Drop)]
pub struct Told<'a, F> {
    pub filter: Option<&'a Filter>,
    pub assignable: F,
}

impl<'a, F: Fn(BundleId, &Text) -> bool + Drop> ServiceTest for Told<'a, F> {
    type Error = Infallible;

    ghost can_ask = { λ t. F.IsAlwaysCallable t.assignable };

    ghost answers = { λ t. spec.AnswersTold (λ test. (owner : BundleId) (class : _) (answer : Bool) → F.post t.assignable owner class answer → answer ≡ test owner class.now) (option_copied t.filter) };

    fn passes(&self, service: &Service) -> Result<bool, Infallible> {
        Ok(is_open(service, self.filter, &self.assignable))
    }
}

/// Whether the service is assignable to who asks for each of its classes.
fn is_assignable_to<A: Assignability>(
    service: &Service,
    asker: BundleId,
    assignability: &A,
) -> Result<bool, AllocError>
    ensures assignable { IfOk result (λ is.
        Decides is
        (All (λ c. IsAssignable (A.world assignability.now) service.now.owner asker c)
        service.now.classes)) }
{
    for class in service.classes.items() {
        if !assignability.is_assignable(service.owner, asker, class)? {
            return Ok(false);
        }
    }
    Ok(true)
}

/// The test of services that fit the filter, and that are assignable to who asks for each of their classes.
#[derive(Drop)]
pub struct Asked<'a, A> {
    pub filter: Option<&'a Filter>,
    pub asker: BundleId,
    pub assignability: &'a A,
}

impl<'a, A: Assignability> ServiceTest for Asked<'a, A> {
    type Error = AllocError;

    ghost can_ask = { λ t. Unit {0} };

    ghost answers = { λ t. spec.AnswersIn (A.world t.assignability.now) t.asker (option_copied t.filter) };

    fn passes(&self, service: &Service) -> Result<bool, AllocError> {
        Ok(
            does_fit(self.filter, service)
                && is_assignable_to(service, self.asker, self.assignability)?,
        )
    }
}

/// The services at these places, in their order.
pub fn all_of(alloc: Global, places: &BTreeSet<Place>) -> Result<List<ServiceId>, AllocError>
    ensures all { IfOk result (λ all. all ≡ map service_at places.now.keys) }
    ensures ordered { OnOk result (IsStrictlySortedBy place_cmp places.now.keys) }
{
    let mut all = List::new(alloc)?;
    for place in places {
        all.push(place.service())?;
    }
    Ok(all)
}

/// Those of the services at these places that fit the filter, in their order.
pub fn all_fit(
    alloc: Global,
    live: Live<'_>,
    places: &BTreeSet<Place>,
    asked: &Filter,
) -> Result<List<ServiceId>, AllocError>
    requires current { AreCurrent (slots_in live.slots.now) live.rows.now.entries }
    ensures all { IfOk result (λ all.
        all
        ≡ ids_of
        (filter (spec.does_fit (Some asked.now))
        (services_at live.entry.rows.now.entries places.now.keys))) }
    ensures ordered { OnOk result (IsStrictlySortedBy place_cmp places.now.keys) }
{
    let mut all = List::new(alloc)?;
    for place in places {
        let Some(service) = live.service(place.service()) else {
            continue;
        };
        if !does_fit(Some(asked), service) {
            continue;
        }
        all.push(service.service)?;
    }
    Ok(all)
}
