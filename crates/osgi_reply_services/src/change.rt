//! What an operation on services changes in the registry.

ghost use Rattle.std.specs.Prelude.{◌≡◌, OnOk, OnErr};
ghost use Rattle.osgi_reply_services.specs.Changes.{Changes, CanBeMade};

use osgi_base::{BundleId, ServiceId};
use osgi_ops::{Scope, Service};
use osgi_registry::Registry;
use std::alloc::AllocError;

/// A change of the registry, decided and not yet made.
pub enum ServiceChange {
    Nothing,
    /// The service is registered with the scope.
    Insert { service: Service, scope: Scope },
    /// The service, which was made with other properties, is put in place of the live one of its id.
    Modify { service: Service },
    /// The owner's service is taken out.
    Remove { owner: BundleId, service: ServiceId },
    /// The user uses the service once more.
    AddUse { user: BundleId, service: ServiceId },
    /// The user uses the service once less.
    TakeUse { user: BundleId, service: ServiceId },
}

/// Not derived, so that each exit at which one is dropped is a single call, which is cheap to prove.
impl Drop for ServiceChange {
    fn drop(self) {
        match self {
            ServiceChange::Nothing => {}
            ServiceChange::Insert {
                service: _,
                scope: _,
            } => {}
            ServiceChange::Modify { service: _ } => {}
            ServiceChange::Remove {
                owner: _,
                service: _,
            } => {}
            ServiceChange::AddUse {
                user: _,
                service: _,
            } => {}
            ServiceChange::TakeUse {
                user: _,
                service: _,
            } => {}
        }
    }
}

impl ServiceChange {
    /// Makes the change. If memory runs out, nothing changes.
    pub fn commit(self, registry: &mut Registry) -> Result<(), AllocError>
        requires possible { CanBeMade self registry.old }
        ensures changed { OnOk result (Changes self registry.old registry.new) }
        ensures unchanged { OnErr result (registry.new ≡ registry.old) }
    {
        match self {
            ServiceChange::Nothing => Ok(()),
            ServiceChange::Insert { service, scope } => {
                registry.insert(service, scope)?;
                Ok(())
            }
            ServiceChange::Modify { service } => {
                registry.replace(service)?;
                Ok(())
            }
            ServiceChange::Remove { owner, service } => {
                let Ok(()) = registry.unregister(owner, service) else {
                    unreachable!()
                };
                Ok(())
            }
            ServiceChange::AddUse { user, service } => {
                if !registry.add_use(user, service)? {
                    unreachable!()
                }
                Ok(())
            }
            ServiceChange::TakeUse { user, service } => {
                registry.unget(user, service);
                Ok(())
            }
        }
    }
}
