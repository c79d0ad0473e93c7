//! A live service with the counts of its uses.

ghost use Rattle.std.specs.Prelude.{◌≡◌, ◌<◌, ◌≤◌, ◌-◌, nat_lt, [], IfOk, OnOk, OnErr};
ghost use Rattle.std.specs.Bool.{OnTrue, OnFalse};
ghost use Rattle.osgi_ops.specs.Properties.{with_framework};
ghost use Rattle.osgi_registry.specs.Rows.{count_of, used_less, used_more, without_user};

use osgi_base::{BundleId, Shared};
use osgi_model::Attributes;
use osgi_ops::{Scope, Service};
use osgi_registry_index::{FrameworkTexts, Uses};
use std::alloc::{AllocError, Global};
use std::marker::Model;

/// A service, which its slot shares, its scope, and how often each user holds it.
///
/// All are reached through one pointer, so that the nodes of a tree of these stay small: a look-up goes through few of them.
#[derive(Drop)]
pub struct Held {
    inner: Box<Used>,
}

#[derive(Drop)]
struct Used {
    service: Shared<Service>,
    scope: Scope,
    uses: Uses,
}

impl Model for Held {
    ghost use Rattle.osgi_registry.specs.Rows.{LiveService};
    ghost use Rattle.std.specs.Coded.{codes};
    ghost use Rattle.osgi_model.specs.contracts.value.Value as value;

    ghost Value = { LiveService };

    ghost coded = { Prim.hlevel (codes, value.the_row.coded) };

    ghost view = { λ h. record { service = h.inner.value.service; scope = h.inner.value.scope; uses = h.inner.value.uses } };
}

impl Held {
    /// A service that nobody uses yet.
    pub fn new(alloc: Global, service: Service, scope: Scope) -> Result<Held, AllocError>
        ensures service { IfOk result (λ held.
            held ≡ record { service = service; scope = scope; uses = [] }) }
    {
        let service = Shared::new(alloc, service)?;
        let uses = Uses::new();
        Ok(Held {
            inner: Box::new(
                alloc,
                Used {
                    service,
                    scope,
                    uses,
                },
            )?,
        })
    }

    pub fn service(&self) -> &Service
        ensures service { result.now ≡ self.now.service }
    {
        self.inner.service.get()
    }

    pub fn scope(&self) -> Scope
        ensures scope { result ≡ self.now.scope }
    {
        self.inner.scope
    }

    /// The service, to be shared.
    pub fn shared(&self) -> &Shared<Service>
        ensures service { result.now ≡ self.now.service }
    {
        &self.inner.service
    }

    /// Puts this service in place of the one that was held.
    pub fn replace(&mut self, service: Shared<Service>)
        ensures replaced { self.new ≡ record self.old { service = service } }
    {
        self.inner.service = service;
    }

    /// Counts one more use by the user.
    pub fn add_use(&mut self, alloc: Global, user: BundleId) -> Result<(), AllocError>
        requires room { count_of user self.old.uses < u64.MAX }
        ensures service { self.new.service ≡ self.old.service }
        ensures used { OnOk result (self.new ≡ used_more user self.old) }
        ensures unchanged { OnErr result (self.new ≡ self.old) }
    {
        self.inner.uses.add(alloc, user)
    }

    /// Whether the user holds it.
    pub fn is_used(&self, user: BundleId) -> bool
        ensures used { result ≡ nat_lt 0 (count_of user self.now.uses) }
    {
        self.inner.uses.is_counted(user)
    }

    /// Counts one use less by the user, and answers whether there was one.
    pub fn take_use(&mut self, user: BundleId) -> bool
        ensures answer { result ≡ nat_lt 0 (count_of user self.old.uses) }
        ensures service { self.new.service ≡ self.old.service }
        ensures used { OnTrue result (self.new ≡ used_less user self.old) }
        ensures unchanged { OnFalse result (self.new ≡ self.old) }
    {
        self.inner.uses.take(user)
    }

    /// Forgets the uses by the user.
    pub fn forget(&mut self, user: BundleId)
        ensures forgotten { self.new ≡ without_user user self.old }
    {
        self.inner.uses.forget(user);
    }
}

/// The service of the scope with these properties and those that the framework sets, in place of all that it had.
pub fn modified(
    alloc: Global,
    texts: &FrameworkTexts,
    service: &Service,
    scope: Scope,
    given: Attributes,
) -> Result<Service, AllocError>
    requires fits { service.now.service.0 ≤ u32.MAX }
    ensures modified { IfOk result (λ modified.
        modified
        ≡ record service.now
        { properties = with_framework given service.now.classes scope service.now.service service.now.owner }) }
{
    let properties = texts.with_framework(
        alloc,
        given,
        service.classes.items(),
        scope,
        service.service,
        service.owner,
    )?;
    Ok(Service {
        service: service.service,
        owner: service.owner,
        classes: service.classes.copy(alloc)?,
        object: service.object.copy(alloc)?,
        properties,
    })
}
