//! Whether a requirement may be wired to a capability.

ghost use Rattle.std.specs.Prelude.{◌≡◌, ◌↔◌, ◌<◌, false, IsTrue, Some};
ghost use Rattle.osgi_candidates.specs.computed.Fitting.{IsFit, IsHeldOffer, IsReplaced, IsToCome, MayProvide, Meets, Stands, bare};
ghost use Rattle.osgi_world.specs.Candidates.{IsCandidate};
ghost use Rattle.osgi_world.specs.Lookups.{capability_count, is_dynamic, requirement_at};

use crate::held::Held;
use crate::offers::Offers;
use osgi_capability::satisfies;
use osgi_world::{CapRef, ReqRef, Requirement};

impl Offers<'_> {
    /// Whether the capability is a candidate of the requirement, which stands at this place.
    pub(crate) fn is_candidate(
        &self,
        at: ReqRef,
        requirement: &Requirement,
        capability: CapRef,
    ) -> bool
        ensures candidate { IsFit self.now → requirement_at self.now.known at ≡ Some requirement.now
            → is_dynamic self.now.known at ≡ false
            → IsTrue result ↔ IsCandidate (bare self.now) at capability }
    {
        if !self.meets(requirement, capability) {
            return false;
        }
        if !self.may_provide(at, capability) {
            return false;
        }
        self.stands(capability)
    }

    /// Whether the capability satisfies the requirement.
    fn meets(&self, requirement: &Requirement, capability: CapRef) -> bool
        ensures meets { IsTrue result ↔ Meets self.now.known requirement.now capability }
    {
        let Some(provider) = self.known.revision(capability.provider) else {
            return false;
        };
        match self.known.capability(capability.owner, capability.index) {
            Some(offered) => satisfies(requirement, offered, &provider.name, &provider.version),
            None => false,
        }
    }

    /// Whether the provider is current and no fragment, and not the bundle that requires itself.
    fn may_provide(&self, at: ReqRef, capability: CapRef) -> bool
        ensures may { IsTrue result ↔ MayProvide self.now.known at capability }
    {
        self.known.is_current(capability.provider)
            && !self.known.is_fragment(capability.provider)
            && (!self.known.is_bundle(capability.owner, capability.index)
                || capability.provider != at.owner)
    }

    /// Whether the provider has the capability on offer, or would have it once it is in force.
    fn stands(&self, capability: CapRef) -> bool
        ensures stands { IsFit self.now → IsTrue result ↔ Stands self.now capability }
    {
        match self.index.held.of(capability.provider) {
            Some(held) => self.is_on_offer(held, capability),
            None => self.is_to_come(capability),
        }
    }

    fn has_capability(&self, capability: CapRef) -> bool
        ensures has { IsTrue result
            ↔ (capability.index < capability_count self.now.known capability.owner) }
    {
        (capability.index as usize) < self.known.capability_count(capability.owner)
    }

    /// Whether a provider with this wiring has the capability on offer.
    fn is_on_offer(&self, held: &Held, capability: CapRef) -> bool
        ensures offer { IsTrue result ↔ IsHeldOffer self.now.known held.now capability }
    {
        self.has_capability(capability)
            && (capability.owner == capability.provider
                || held.fragments.contains(&capability.owner.0))
            && !self.is_replaced(held, capability)
    }

    /// Whether it is an export of a package that is imported from elsewhere.
    fn is_replaced(&self, held: &Held, capability: CapRef) -> bool
        ensures replaced { IsTrue result ↔ IsReplaced self.now.known held.now capability }
    {
        match self
            .known
            .exported_package(capability.owner, capability.index)
        {
            Some(name) => held.elsewhere.contains(name),
            None => false,
        }
    }

    /// Whether a provider that is not in force has the capability itself, or from a current fragment that matches it.
    fn is_to_come(&self, capability: CapRef) -> bool
        ensures to_come { IsTrue result ↔ IsToCome self.now.known capability }
    {
        let owner = capability.owner;
        self.has_capability(capability)
            && (owner == capability.provider
                || self.known.is_current(owner)
                    && self.known.is_host_of(owner, capability.provider))
    }
}
