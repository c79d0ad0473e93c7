//! The services that belong to each bundle.

ghost use Rattle.std.specs.Prelude.{◌≡◌, ℕ, true, false, map, IfOk, OnOk, OnErr};
ghost use Rattle.std.specs.List.Sorted.{IsStrictlySortedBy};
ghost use Rattle.std.specs.Ordering.{nat_cmp};
ghost use Rattle.osgi_base.specs.declared.ids.ServiceId.{ServiceId};

use osgi_base::{BundleId, List, ServiceId};
use std::alloc::{AllocError, Global};
use std::collections::{BTreeMap, BTreeSet};

/// The services that each bundle owns or uses, by rising id. A bundle without services is not kept.
///
/// It may have some that the bundle no longer owns or uses: who asks it looks each up.
#[derive(Drop)]
pub struct BundleServices {
    alloc: Global,
    bundles: BTreeMap<u32, BTreeSet<u64>>,
}

impl BundleServices {
    ghost use Rattle.osgi_registry_index.specs.Belonging.{belongs, BelongsSame, bundles_in, Empties, services_of, Sets};

    pub fn new(alloc: Global) -> BundleServices
        ensures none { (b s : ℕ) → belongs (bundles_in result) b s ≡ false }
    {
        BundleServices {
            alloc,
            bundles: BTreeMap::new(alloc),
        }
    }

    /// Adds the service to the bundle's.
    pub fn add(&mut self, bundle: BundleId, service: ServiceId) -> Result<(), AllocError>
        ensures added { OnOk result
            (Sets (bundles_in self.old) (bundles_in self.new) bundle service true) }
        ensures unchanged { OnErr result (BelongsSame (bundles_in self.old) (bundles_in self.new)) }
    {
        if let Some(services) = self.bundles.get_mut(&bundle.0) {
            services.insert(service.0)?;
            return Ok(());
        }
        let mut services = BTreeSet::new(self.alloc);
        services.insert(service.0)?;
        self.bundles.insert(bundle.0, services)?;
        Ok(())
    }

    /// Takes the service out of the bundle's.
    pub fn take(&mut self, bundle: BundleId, service: ServiceId)
        ensures taken { Sets (bundles_in self.old) (bundles_in self.new) bundle service false }
    {
        let Some(services) = self.bundles.get_mut(&bundle.0) else {
            return;
        };
        services.remove(&service.0);
        if services.is_empty() {
            self.bundles.remove(&bundle.0);
        }
    }

    /// Takes out all services of the bundle.
    pub fn take_all(&mut self, bundle: BundleId)
        ensures taken { Empties (bundles_in self.old) (bundles_in self.new) bundle }
    {
        self.bundles.remove(&bundle.0);
    }

    /// The services of the bundle, rising.
    pub fn services(&self, alloc: Global, bundle: BundleId) -> Result<List<ServiceId>, AllocError>
        ensures services { IfOk result (λ services.
            map (λ (service : ServiceId). service.0) services
            ≡ services_of (bundles_in self.now) bundle.0) }
        ensures rising { OnOk result
            (IsStrictlySortedBy nat_cmp (services_of (bundles_in self.now) bundle.0)) }
    {
        match self.bundles.get(&bundle.0) {
            Some(services) => listed(alloc, services),
            None => List::new(alloc),
        }
    }
}

/// The services of these numbers.
fn listed(alloc: Global, services: &BTreeSet<u64>) -> Result<List<ServiceId>, AllocError>
    ensures listed { IfOk result (λ list.
        map (λ (service : ServiceId). service.0) list ≡ services.now.keys) }
    ensures rising { OnOk result (IsStrictlySortedBy nat_cmp services.now.keys) }
{
    let mut list = List::new(alloc)?;
    for service in services {
        list.push(ServiceId(*service))?;
    }
    Ok(list)
}
