//! Payloads: what a host offers and needs with its fragments.

ghost use Rattle.std.specs.Prelude.{◌≡◌, ◌<◌, ◌^◌, ◌∷◌, ◌++◌, [], IfOk, OnOk, map};
ghost use Rattle.osgi_world.specs.Lists.{below};
ghost use Rattle.osgi_world.specs.Payloads.{capabilities_of, own_capabilities, own_requirements, requirements_of};

use osgi_base::{List, RevisionId};
use osgi_lookup::KnownIndex;
use osgi_world::{CapRef, ReqRef, World};
use std::alloc::{AllocError, Global};

/// What a host offers and needs with its fragments, by places.
#[derive(Drop, PartialEq, Eq)]
pub struct Hosted {
    pub capabilities: List<CapRef>,
    /// Dynamic imports are not among them.
    pub requirements: List<ReqRef>,
}

impl Hosted {
    /// Nothing yet.
    fn new(alloc: Global) -> Result<Hosted, AllocError>
        ensures capabilities { IfOk result (λ hosted. hosted.capabilities ≡ []) }
        ensures requirements { IfOk result (λ hosted. hosted.requirements ≡ []) }
    {
        let capabilities = List::new(alloc)?;
        Ok(Hosted {
            capabilities,
            requirements: List::new(alloc)?,
        })
    }

    /// Adds what each of the owners offers and needs, in their order. The host provides all capabilities.
    fn add_all(
        &mut self,
        known: &KnownIndex,
        host: RevisionId,
        owners: &[RevisionId],
    ) -> Result<(), AllocError>
        ensures capabilities { OnOk result (self.new.capabilities ≡ self.old.capabilities ++ capabilities_of known.now host owners.now) }
        ensures requirements { OnOk result (self.new.requirements ≡ self.old.requirements ++ requirements_of known.now owners.now) }
    {
        for owner in owners {
            self.add(known, host, *owner)?;
        }
        Ok(())
    }

    /// Adds what the owner offers and needs; nothing where it is not known.
    fn add(
        &mut self,
        known: &KnownIndex,
        provider: RevisionId,
        owner: RevisionId,
    ) -> Result<(), AllocError>
        ensures capabilities { OnOk result (self.new.capabilities ≡ self.old.capabilities ++ own_capabilities known.now provider owner) }
        ensures requirements { OnOk result (self.new.requirements ≡ self.old.requirements ++ own_requirements known.now owner) }
    {
        let Some(revision) = known.revision(owner) else {
            return Ok(());
        };
        let offered = revision.capabilities.items().len();
        add_capabilities(&mut self.capabilities, provider, owner, offered)?;
        let needed = revision.requirements.items().len();
        add_requirements(&mut self.requirements, owner, needed)?;
        Ok(())
    }
}

/// Adds the places of so many capabilities of the owner.
fn add_capabilities(
    capabilities: &mut List<CapRef>,
    provider: RevisionId,
    owner: RevisionId,
    count: usize,
) -> Result<(), AllocError>
    requires fits { count < 2 ^ 32 }
    ensures added { OnOk result (capabilities.new ≡ capabilities.old ++ map (λ i. record { provider = provider; owner = owner; index = i }) (below count)) }
{
    for index in 0..count {
        capabilities.push(CapRef {
            provider,
            owner,
            index: index as u32,
        })?;
    }
    Ok(())
}

/// Adds the places of so many requirements of the owner.
fn add_requirements(
    requirements: &mut List<ReqRef>,
    owner: RevisionId,
    count: usize,
) -> Result<(), AllocError>
    requires fits { count < 2 ^ 32 }
    ensures added { OnOk result (requirements.new ≡ requirements.old ++ map (λ i. record { owner = owner; index = i }) (below count)) }
{
    for index in 0..count {
        requirements.push(ReqRef {
            owner,
            index: index as u32,
        })?;
    }
    Ok(())
}

/// The payload of the host with these fragments: what the host itself offers and needs, then what each fragment does, in the
/// order in which the fragments are given. Each owner stays what it is, and the host provides all capabilities. A revision
/// that is not known offers and needs nothing.
pub fn payload(
    alloc: Global,
    world: &World,
    host: RevisionId,
    fragments: &[RevisionId],
) -> Result<Hosted, AllocError>
    ensures capabilities { IfOk result (λ hosted. hosted.capabilities ≡ capabilities_of world.now.known host (host ∷ fragments.now)) }
    ensures requirements { IfOk result (λ hosted. hosted.requirements ≡ requirements_of world.now.known (host ∷ fragments.now)) }
{
    let known = KnownIndex::new(alloc, world.known.items())?;
    let mut hosted = Hosted::new(alloc)?;
    hosted.add(&known, host, host)?;
    hosted.add_all(&known, host, fragments)?;
    Ok(hosted)
}
