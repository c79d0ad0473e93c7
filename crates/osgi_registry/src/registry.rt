//! The registry.

ghost use Rattle.std.specs.Prelude.{◌≡◌, Bool, List, ℕ, filter, map, true, ◌+◌, ◌<◌, [], ◌∷◌, ◌++◌, nat_lt, length, slice_get, None, Some, false, All, IfOk, IfSome, OnOk, OnErr};
ghost use Rattle.osgi_base.specs.declared.ids.BundleId.{BundleId};
ghost use Rattle.osgi_ops.specs.Classes.{AreRanked, IsFound, IsOf, IsOpenTo};
ghost use Rattle.std.specs.Bool.{OnTrue, OnFalse};
ghost use Rattle.std.specs.Option.{option_copied, option_map};
ghost use Rattle.std.specs.Result.{result_err};
ghost use Rattle.std.specs.List.Sorted.{IsStrictlySortedBy};
ghost use Rattle.std.specs.Ordering.{nat_cmp};
ghost use Rattle.osgi_base.specs.declared.ids.ServiceId.{ServiceId};
ghost use Rattle.osgi_ops.specs.declared.op.Op.TheVariants as op;
ghost use Rattle.osgi_ops.specs.declared.reply.Reply.TheVariants as answers;
ghost use Rattle.osgi_registry.specs.computed.Concerns.{AreAmong, concerns, live_among, owns};
ghost use Rattle.osgi_registry.specs.Rows.{AreInOrder, change, change_refusal, DiffersAtMostInProperties, ids_of, is_owned, is_service, IsAskedFor, modify_refusal, IsOpenBy, new_row, object_at, register_refusal, released, row_at, services_in, use_count, used_less, used_more, with_properties, with_service, without, without_user};
ghost use Rattle.osgi_registry.specs.Stands.{StandsAfter, StandsCleaned, StandsFor};

use crate::assignability::Assignability;
use crate::finding::{Asked, Told, all_fit, all_of};
use crate::held::{Held, modified};
use crate::live::Live;
use crate::service_test::first_passing;
use crate::services::Services;
use osgi_base::{BundleId, List, ServiceId, Shared, Text};
use osgi_model::{Attributes, Filter};
use osgi_ops::{MAX_SERVICES, Many, Refusal, Scope, Service};
use osgi_registry_index::{BundleServices, ClassIndex, FrameworkTexts, IdSlots, Place, has_twins};
use std::alloc::{AllocError, Global};
use std::collections::BTreeMap;
use std::marker::Model;

/// The live services by rising id, with their uses.
pub struct Registry {
    alloc: Global,
    texts: FrameworkTexts,
    services: BTreeMap<u64, Held>,
    slots: IdSlots,
    index: ClassIndex,
    bundles: BundleServices,
    issued: u64,
}

/// Not derived, so that each exit at which one is dropped is a single call, which is cheap to prove.
impl Drop for Registry {
    fn drop(self) {
        let Registry {
            alloc: _,
            texts: _,
            services: _,
            slots: _,
            index: _,
            bundles: _,
            issued: _,
        } = self;
    }
}

impl Model for Registry {
    ghost use Rattle.std.specs.Map.{values_of};
    ghost use Rattle.osgi_registry.specs.computed.Kept.{IsKept};
    ghost use Rattle.osgi_registry.specs.Rows.{RegistryRows};
    ghost use Rattle.osgi_registry_index.specs.Belonging.{bundles_in};
    ghost use Rattle.osgi_registry_index.specs.Places.{classes_in};
    ghost use Rattle.osgi_registry_index.specs.Slots.{slots_in};
    ghost use Rattle.std.specs.Coded.{codes};
    ghost use Rattle.osgi_model.specs.contracts.value.Value as value;

    ghost Value = { RegistryRows };

    ghost coded = { Prim.hlevel (codes, value.the_row.coded) };

    ghost view = { λ r. record { rows = values_of r.services.entries; issued = r.issued } };

    ghost invariant = { λ r. IsKept r.issued r.services.entries (slots_in r.slots) (classes_in r.index) (bundles_in r.bundles) };
}

impl Registry {
    pub fn new(alloc: Global) -> Result<Registry, AllocError>
        ensures empty { IfOk result (λ registry. registry ≡ record { rows = []; issued = 0 }) }
        ensures stands { IfOk result (StandsFor []) }
    {
        Ok(Registry {
            alloc,
            texts: FrameworkTexts::new(alloc)?,
            services: BTreeMap::new(alloc),
            slots: IdSlots::new(alloc),
            index: ClassIndex::new(alloc),
            bundles: BundleServices::new(alloc),
            issued: 0,
        })
    }

    /// How many services are live.
    pub fn count(&self) -> usize
        ensures count { result ≡ length self.now.rows }
        ensures in_order { AreInOrder self.now }
    {
        self.services.len()
    }

    /// The live service at this place by rising id.
    pub fn at(&self, place: usize) -> &Service
        requires within { place < length self.now.rows }
        ensures service { slice_get (services_in self.now.rows) place ≡ Some result.now }
        ensures in_order { AreInOrder self.now }
    {
        let Some(held) = self.services.values().nth(place) else {
            unreachable!()
        };
        held.service()
    }

    /// The live services by rising id.
    pub fn services(&self) -> Services<'_>
        ensures services { result ≡ services_in self.now.rows }
        ensures in_order { AreInOrder self.now }
    {
        Services::new(self.services.values())
    }

    /// Registers a service under the next id. Tests alone call it: the program decides by `make`, and registers by `insert`.
    pub fn register(
        &mut self,
        owner: BundleId,
        classes: List<Text>,
        object: Text,
        scope: Scope,
        properties: Attributes,
    ) -> Result<Result<ServiceId, Refusal>, AllocError>
        requires ids_left { self.old.issued < u32.MAX }
        ensures refusal { IfOk result (λ answer.
            result_err answer ≡ register_refusal properties self.old.rows) }
        ensures id { IfOk result (λ answer. IfOk answer (λ id. id.0 ≡ self.old.issued + 1)) }
        ensures rows { IfOk result (λ answer.
            IfOk answer (λ id.
            self.new.rows
            ≡ self.old.rows ++ new_row id owner classes object scope properties ∷ [])) }
        ensures issued { IfOk result (λ answer.
            OnOk answer (self.new.issued ≡ self.old.issued + 1)) }
        ensures stands { IfOk result (λ answer.
            IfOk answer (λ id.
            StandsAfter (op.Register owner classes object scope properties) (answers.Service id)
            self.old self.new)) }
        ensures refused { IfOk result (λ answer. OnErr answer (self.new ≡ self.old)) }
        ensures unchanged { OnErr result (self.new ≡ self.old) }
    {
        match self.make(owner, classes, object, scope, properties)? {
            Ok(made) => {
                let service = made.service;
                self.insert(made, scope)?;
                Ok(Ok(service))
            }
            Err(refusal) => Ok(Err(refusal)),
        }
    }

    /// The service as it is registered under the next id, by `insert`. The program decides by this call.
    pub fn make(
        &self,
        owner: BundleId,
        classes: List<Text>,
        object: Text,
        scope: Scope,
        properties: Attributes,
    ) -> Result<Result<Service, Refusal>, AllocError>
        requires ids_left { self.now.issued < u32.MAX }
        ensures refusal { IfOk result (λ answer.
            result_err answer ≡ register_refusal properties self.now.rows) }
        ensures made { IfOk result (λ answer.
            IfOk answer (λ made.
            made
            ≡
            (new_row (record { 0 = self.now.issued + 1 }) owner classes object scope properties).service)) }
        ensures room { IfOk result (λ answer. OnOk answer (length self.now.rows < MAX_SERVICES)) }
        ensures in_order { OnOk result (AreInOrder self.now) }
    {
        if has_twins(self.alloc, properties.items())? {
            return Ok(Err(Refusal::BadProperties));
        }
        if self.services.len() >= MAX_SERVICES {
            return Ok(Err(Refusal::TooMany {
                kind: Many::Services,
            }));
        }
        let service = ServiceId(self.issued + 1);
        let properties = self.texts.with_framework(
            self.alloc,
            properties,
            classes.items(),
            scope,
            service,
            owner,
        )?;
        Ok(Ok(Service {
            service,
            owner,
            classes,
            object,
            properties,
        }))
    }

    /// Inserts a service that `make` made, under the next id. The program registers by this call.
    pub fn insert(&mut self, service: Service, scope: Scope) -> Result<(), AllocError>
        requires next { service.service.0 ≡ self.old.issued + 1 }
        requires fits { self.old.issued < u32.MAX }
        requires room { length self.old.rows < MAX_SERVICES }
        ensures rows { OnOk result
            (self.new.rows
            ≡ self.old.rows ++ record { service = service; scope = scope; uses = [] } ∷ []) }
        ensures issued { OnOk result (self.new.issued ≡ self.old.issued + 1) }
        ensures unchanged { OnErr result (self.new ≡ self.old) }
    {
        let id = service.service.0;
        let owner = service.owner;
        let place = Place::of(&service);
        let held = Held::new(self.alloc, service, scope)?;
        let shared = held.shared().copy(self.alloc)?;
        self.bundles.add(owner, ServiceId(id))?;
        self.index.add_all(held.service().classes.items(), place)?;
        if let Err(error) = self.services.insert(id, held) {
            let (_, held) = error.value;
            self.index.take_all(held.service().classes.items(), place);
            return Err(AllocError);
        }
        self.slots.put(shared);
        self.issued = id;
        Ok(())
    }

    /// Why the owner may not change the service, if there is a reason.
    pub fn refusal_of(&self, owner: BundleId, service: ServiceId) -> Option<Refusal>
        ensures refusal { result ≡ change_refusal owner service self.now.rows }
    {
        let Some(held) = self.services.get(&service.0) else {
            return Some(Refusal::NoSuchService);
        };
        let other = held.service().owner;
        if owner.0 == other.0 {
            return None;
        }
        Some(Refusal::NotOwner { owner: other })
    }

    /// Puts these properties in place of all that were given of the service. Tests alone call it: the program decides by
    /// `modify_refusal` and `make_modified`, and modifies by `replace`.
    pub fn modify(
        &mut self,
        owner: BundleId,
        service: ServiceId,
        properties: Attributes,
    ) -> Result<Result<(), Refusal>, AllocError>
        ensures refusal { IfOk result (λ answer.
            result_err answer ≡ modify_refusal owner service properties self.old.rows) }
        ensures rows { IfOk result (λ answer.
            OnOk answer
            (self.new.rows ≡ change service (with_properties properties) self.old.rows)) }
        ensures issued { self.new.issued ≡ self.old.issued }
        ensures stands { IfOk result (λ answer.
            OnOk answer
            (StandsAfter (op.Modify owner service properties) answers.Done self.old self.new)) }
        ensures refused { IfOk result (λ answer. OnErr answer (self.new ≡ self.old)) }
        ensures unchanged { OnErr result (self.new ≡ self.old) }
    {
        if let Some(refusal) = self.modify_refusal(owner, service, &properties)? {
            return Ok(Err(refusal));
        }
        let Some(made) = self.make_modified(service, properties)? else {
            return Ok(Err(Refusal::NoSuchService));
        };
        self.replace(made)?;
        Ok(Ok(()))
    }

    /// Why the owner may not put these properties in place of the service's, if there is a reason.
    pub fn modify_refusal(
        &self,
        owner: BundleId,
        service: ServiceId,
        properties: &Attributes,
    ) -> Result<Option<Refusal>, AllocError>
        ensures refusal { IfOk result (λ refusal.
            refusal ≡ modify_refusal owner service properties.now self.now.rows) }
    {
        if let Some(refusal) = self.refusal_of(owner, service) {
            return Ok(Some(refusal));
        }
        if has_twins(self.alloc, properties.items())? {
            return Ok(Some(Refusal::BadProperties));
        }
        Ok(None)
    }

    /// The service as it stands once these properties are put in place of all that were given of it; none where it is not live.
    pub fn make_modified(
        &self,
        service: ServiceId,
        properties: Attributes,
    ) -> Result<Option<Service>, AllocError>
        ensures made { IfOk result (λ made.
            made
            ≡ option_map (λ row. (with_properties properties row).service)
            (row_at service self.now.rows)) }
        ensures in_order { OnOk result (AreInOrder self.now) }
    {
        let Some(held) = self.services.get(&service.0) else {
            return Ok(None);
        };
        let now = held.service();
        let made = modified(self.alloc, &self.texts, now, held.scope(), properties)?;
        Ok(Some(made))
    }

    /// Puts a service, which `make_modified` made, in place of the live one of its id, from which it differs in its properties
    /// alone. The program modifies by this call.
    pub fn replace(&mut self, service: Service) -> Result<(), AllocError>
        requires differs { DiffersAtMostInProperties service self.old.rows }
        ensures rows { OnOk result
            (self.new.rows ≡ change service.service (with_service service) self.old.rows) }
        ensures issued { self.new.issued ≡ self.old.issued }
        ensures unchanged { OnErr result (self.new ≡ self.old) }
    {
        let id = service.service;
        let Some(held) = self.services.get_mut(&id.0) else {
            unreachable!()
        };
        let now = held.service();
        let place = Place::of(&service);
        let next = Shared::new(self.alloc, service)?;
        let shared = next.copy(self.alloc)?;
        self.index
            .move_all(now.classes.items(), Place::of(now), place)?;
        held.replace(next);
        self.slots.forget(id);
        self.slots.put(shared);
        Ok(())
    }

    /// Takes the service out, and its uses with it.
    pub fn unregister(&mut self, owner: BundleId, service: ServiceId) -> Result<(), Refusal>
        ensures refusal { result_err result ≡ change_refusal owner service self.old.rows }
        ensures rows { OnOk result (self.new.rows ≡ without service self.old.rows) }
        ensures issued { self.new.issued ≡ self.old.issued }
        ensures stands { OnOk result
            (StandsAfter (op.Unregister owner service) answers.Done self.old self.new) }
        ensures refused { OnErr result (self.new ≡ self.old) }
    {
        if let Some(refusal) = self.refusal_of(owner, service) {
            return Err(refusal);
        }
        self.take_out(service);
        Ok(())
    }

    /// Takes the service out, if it is live, and its uses with it.
    fn take_out(&mut self, service: ServiceId)
        ensures rows { self.new.rows ≡ without service self.old.rows }
        ensures issued { self.new.issued ≡ self.old.issued }
    {
        let Some(held) = self.services.remove(&service.0) else {
            return;
        };
        let taken = held.service();
        self.slots.forget(service);
        self.index.take_all(taken.classes.items(), Place::of(taken));
        self.bundles.take(taken.owner, service);
    }

    /// Counts one more use of the service by the user, and answers a copy of its object. Tests alone call it: the program reads
    /// the `object`, and counts by `add_use`.
    pub fn get(
        &mut self,
        user: BundleId,
        service: ServiceId,
    ) -> Result<Result<Text, Refusal>, AllocError>
        requires countable { use_count user service self.old.rows < u64.MAX }
        ensures object { IfOk result (λ answer. answer ≡ object_at (row_at service self.old.rows)) }
        ensures rows { IfOk result (λ answer.
            OnOk answer (self.new.rows ≡ change service (used_more user) self.old.rows)) }
        ensures issued { self.new.issued ≡ self.old.issued }
        ensures stands { IfOk result (λ answer.
            IfOk answer (λ text.
            StandsAfter (op.Get user service) (answers.Object text) self.old self.new)) }
        ensures refused { IfOk result (λ answer. OnErr answer (self.new ≡ self.old)) }
        ensures unchanged { OnErr result (self.new ≡ self.old) }
    {
        let Some(object) = self.object(service) else {
            return Ok(Err(Refusal::NoSuchService));
        };
        let object = object.copy(self.alloc)?;
        if !self.add_use(user, service)? {
            return Ok(Err(Refusal::NoSuchService));
        }
        Ok(Ok(object))
    }

    /// The live service of this id.
    pub fn service(&self, service: ServiceId) -> Option<&Service>
        ensures service { option_copied result
            ≡ option_map (λ row. row.service) (row_at service self.now.rows) }
    {
        let held = self.services.get(&service.0)?;
        Some(held.service())
    }

    /// The object of a live service.
    pub fn object(&self, service: ServiceId) -> Option<&Text>
        ensures object { option_copied result
            ≡ option_map (λ row. row.service.object) (row_at service self.now.rows) }
    {
        let held = self.services.get(&service.0)?;
        Some(&held.service().object)
    }

    /// Counts one more use of the service by the user; false, and nothing changed, where it is not live. The program counts by
    /// this call.
    pub fn add_use(&mut self, user: BundleId, service: ServiceId) -> Result<bool, AllocError>
        requires countable { use_count user service self.old.rows < u64.MAX }
        ensures absent { IfOk result (λ live. OnFalse live (row_at service self.old.rows ≡ None)) }
        ensures rows { IfOk result (λ live.
            OnTrue live (self.new.rows ≡ change service (used_more user) self.old.rows)) }
        ensures issued { self.new.issued ≡ self.old.issued }
        ensures refused { IfOk result (λ live. OnFalse live (self.new ≡ self.old)) }
        ensures unchanged { OnErr result (self.new ≡ self.old) }
    {
        let Some(held) = self.services.get_mut(&service.0) else {
            return Ok(false);
        };
        self.bundles.add(user, service)?;
        held.add_use(self.alloc, user)?;
        Ok(true)
    }

    /// Whether the user holds the service.
    pub fn is_used(&self, user: BundleId, service: ServiceId) -> bool
        ensures used { result ≡ nat_lt 0 (use_count user service self.now.rows) }
    {
        match self.services.get(&service.0) {
            Some(held) => held.is_used(user),
            None => false,
        }
    }

    /// Counts one use of the service less by the user, and answers whether there was one.
    pub fn unget(&mut self, user: BundleId, service: ServiceId) -> bool
        ensures answer { result ≡ nat_lt 0 (use_count user service self.old.rows) }
        ensures rows { OnTrue result
            (self.new.rows ≡ change service (used_less user) self.old.rows) }
        ensures issued { self.new.issued ≡ self.old.issued }
        ensures stands { StandsAfter (op.Unget user service) (answers.Flag result) self.old
            self.new }
        ensures unchanged { OnFalse result (self.new ≡ self.old) }
    {
        let Some(held) = self.services.get_mut(&service.0) else {
            return false;
        };
        held.take_use(user)
    }

    /// The best of the live services of the class that the filter, if there is one, matches, and that are assignable for each
    /// of their classes: that of the highest ranking, and of these that of the lowest id. `assignable` is asked for a
    /// registrant and a class. Whatever it answers, a service that is found is of the class and fits the filter. Tests alone call
    /// it: the program finds by `find_by`.
    pub fn find<F: Fn(BundleId, &Text) -> bool + Drop>(
        &self,
        class: &Text,
        filter: Option<&Filter>,
        assignable: F,
    ) -> Option<ServiceId>
        requires callable { F.IsAlwaysCallable assignable }
        ensures found { (test : BundleId → List ℕ → Bool)
            →
            ((registrant : BundleId) (class : _) (answer : Bool)
            → F.post assignable registrant class answer
            → answer ≡ test registrant class.now)
            → IsFound (IsOpenBy test class.now (option_copied filter.entry))
            (services_in self.now.rows) result }
        ensures fits { IfSome result
            (IsAskedFor (IsOf class.now (option_copied filter.entry)) (services_in self.now.rows)) }
    {
        let places = self.index.places(class)?;
        let live = Live {
            slots: &self.slots,
            rows: &self.services,
        };
        match first_passing(live, places, &Told { filter, assignable }) {
            Ok(found) => found,
            Err(never) => match never {},
        }
    }

    /// The same, where who asks is named, and it is asked by the wirings of a world what is assignable to it. The program finds
    /// by this call.
    pub fn find_by<A: Assignability>(
        &self,
        class: &Text,
        filter: Option<&Filter>,
        asker: BundleId,
        assignability: &A,
    ) -> Result<Option<ServiceId>, AllocError>
        ensures found { IfOk result
            (IsFound
            (IsOpenTo (A.world assignability.now) asker class.now (option_copied filter.entry))
            (services_in self.now.rows)) }
    {
        let Some(places) = self.index.places(class) else {
            return Ok(None);
        };
        let live = Live {
            slots: &self.slots,
            rows: &self.services,
        };
        first_passing(
            live,
            places,
            &Asked {
                filter,
                asker,
                assignability,
            },
        )
    }

    /// All live services of the class that the filter, if there is one, matches, the best first.
    pub fn find_all(
        &self,
        class: &Text,
        filter: Option<&Filter>,
    ) -> Result<List<ServiceId>, AllocError>
        ensures ranked { IfOk result
            (AreRanked (IsOf class.now (option_copied filter.entry)) (services_in self.now.rows)) }
    {
        let Some(places) = self.index.places(class) else {
            return List::new(self.alloc);
        };
        let live = Live {
            slots: &self.slots,
            rows: &self.services,
        };
        match filter {
            Some(asked) => all_fit(self.alloc, live, places, asked),
            None => all_of(self.alloc, places),
        }
    }

    /// The services of the owner by rising id. It looks at no service that the owner neither owns nor used.
    pub fn owned(&self, owner: BundleId) -> Result<Vec<&Service>, AllocError>
        ensures services { IfOk result (λ owned.
            map (λ s. s.now) owned.items ≡ services_in (filter (is_owned owner) self.now.rows)) }
    {
        let concerned = self.concerned(owner)?;
        let ids = self.owned_among(owner, concerned.items())?;
        self.services_of(ids.items())
    }

    /// The services of these ids that are live.
    fn services_of(&self, ids: &[ServiceId]) -> Result<Vec<&Service>, AllocError>
        ensures services { IfOk result (λ services.
            map (λ s. s.now) services.items ≡ live_among self.now.rows ids.now) }
    {
        let mut services = Vec::with_capacity(self.alloc, ids.len())?;
        for id in ids {
            let Some(held) = self.services.get(&id.0) else {
                continue;
            };
            services.push(held.service())?;
        }
        Ok(services)
    }

    /// Takes out all services of the bundle and all its uses, and gives the ids of these services, rising. It looks at no
    /// service that the bundle neither owned nor used.
    pub fn release(&mut self, bundle: BundleId) -> Result<List<ServiceId>, AllocError>
        ensures services { IfOk result (λ services.
            services ≡ ids_of (filter (is_owned bundle) self.old.rows)) }
        ensures rows { OnOk result (self.new.rows ≡ released bundle self.old.rows) }
        ensures issued { self.new.issued ≡ self.old.issued }
        ensures stands { OnOk result (StandsCleaned bundle self.old self.new) }
        ensures unchanged { OnErr result (self.new ≡ self.old) }
    {
        let services = self.concerned(bundle)?;
        let owned = self.owned_among(bundle, services.items())?;
        self.let_go_all(bundle, services.items());
        self.clear(bundle);
        Ok(owned)
    }

    /// The services that the bundle owns or uses, rising. There may be others, and services that are not live, among them.
    fn concerned(&self, bundle: BundleId) -> Result<List<ServiceId>, AllocError>
        ensures all { IfOk result (λ services. AreAmong bundle services self.now.rows) }
        ensures rising { IfOk result (λ services.
            IsStrictlySortedBy nat_cmp (map (λ (service : ServiceId). service.0) services)) }
        ensures in_order { AreInOrder self.now }
    {
        self.bundles.services(self.alloc, bundle)
    }

    /// Whether the bundle owns the service, and it is live.
    fn is_owned(&self, bundle: BundleId, service: ServiceId) -> bool
        ensures owned { result ≡ owns bundle self.now.rows service }
        ensures each { All (λ row. is_service service row ≡ true → is_owned bundle row ≡ result)
            self.now.rows }
    {
        match self.services.get(&service.0) {
            Some(held) => held.service().owner.0 == bundle.0,
            None => false,
        }
    }

    /// Those of the services that the bundle owns, where these are all that concern it.
    fn owned_among(
        &self,
        bundle: BundleId,
        services: &[ServiceId],
    ) -> Result<List<ServiceId>, AllocError>
        requires all { AreAmong bundle services.now self.now.rows }
        requires rising { IsStrictlySortedBy nat_cmp
            (map (λ (service : ServiceId). service.0) services.now) }
        ensures owned { IfOk result (λ owned.
            owned ≡ ids_of (filter (is_owned bundle) self.now.rows)) }
    {
        let mut owned = List::new(self.alloc)?;
        for service in services {
            if !self.is_owned(bundle, *service) {
                continue;
            }
            owned.push(*service)?;
        }
        Ok(owned)
    }

    /// Forgets the uses of the service by the user, if it is live.
    fn forget(&mut self, user: BundleId, service: ServiceId)
        ensures rows { self.new.rows ≡ change service (without_user user) self.old.rows }
        ensures issued { self.new.issued ≡ self.old.issued }
    {
        let Some(held) = self.services.get_mut(&service.0) else {
            return;
        };
        held.forget(user);
    }

    /// Takes the service out where the bundle owns it, and else forgets the bundle's uses of it.
    fn let_go(&mut self, bundle: BundleId, service: ServiceId)
        ensures rest { released bundle self.new.rows ≡ released bundle self.old.rows }
        ensures among { (others : List ServiceId)
            → AreAmong bundle (service ∷ others) self.old.rows
            → AreAmong bundle others self.new.rows }
        ensures issued { self.new.issued ≡ self.old.issued }
    {
        if self.is_owned(bundle, service) {
            self.take_out(service);
        } else {
            self.forget(bundle, service);
        }
    }

    /// Lets go of the services, where these are all that concern the bundle.
    fn let_go_all(&mut self, bundle: BundleId, services: &[ServiceId])
        requires all { AreAmong bundle services.now self.old.rows }
        ensures rows { self.new.rows ≡ released bundle self.old.rows }
        ensures issued { self.new.issued ≡ self.old.issued }
        ensures none { All (λ row. concerns bundle row ≡ false) self.new.rows }
    {
        for service in services {
            self.let_go(bundle, *service);
        }
    }

    /// Forgets which services the bundle owned and used, where none concerns it any more.
    fn clear(&mut self, bundle: BundleId)
        requires none { All (λ row. concerns bundle row ≡ false) self.old.rows }
        ensures same { self.new ≡ self.old }
    {
        self.bundles.take_all(bundle);
    }
}
