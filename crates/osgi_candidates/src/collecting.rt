//! The candidates of a requirement, collected in their order.

ghost use Rattle.std.specs.Prelude.{IfOk, OnOk};
ghost use Rattle.osgi_candidates.specs.computed.Collecting.{AreCandidates, Asks, Collects, Extends, IsAt, IsAtOf, IsAtSome, IsOf};
ghost use Rattle.osgi_candidates.specs.computed.Fitting.{IsFit};
ghost use Rattle.osgi_candidates.specs.computed.Texts.{AsksText};
ghost use Rattle.osgi_world.specs.Candidates.{CanBeAsked};

use crate::names::Place;
use crate::offers::Offers;
use crate::ranked::{Ranked, in_order};
use crate::texts::{TextKey, text_key};
use osgi_base::RevisionId;
use osgi_capability::asked_text;
use osgi_world::{CapRef, ReqRef, Requirement};
use std::alloc::{AllocError, Global};
use std::collections::BTreeSet;

impl Offers<'_> {
    /// The candidates of a requirement, the preferred first. Of a dynamic import nothing is said.
    pub(crate) fn listed(&self, alloc: Global, at: ReqRef) -> Result<Vec<CapRef>, AllocError>
        ensures exact { IfOk result (λ list. IsFit self.now → CanBeAsked self.now.known at
            → AreCandidates self.now at list.items) }
    {
        match self.known.requirement(at) {
            Some(requirement) => {
                let found = self.collected(alloc, at, requirement)?;
                Ok(in_order(alloc, &found)?)
            }
            None => Ok(Vec::new(alloc)),
        }
    }

    /// The candidates: of the capabilities that have a text that the requirement asks for, or of all of its name.
    fn collected(
        &self,
        alloc: Global,
        at: ReqRef,
        requirement: &Requirement,
    ) -> Result<BTreeSet<Ranked>, AllocError>
        ensures collected { IfOk result (λ found. IsFit self.now → Asks self.now at requirement.now
            → Collects self.now at found) }
    {
        match asked_text(requirement) {
            Some(asked) => {
                let key = text_key(alloc, &requirement.name, asked)?;
                Ok(self.collected_by_text(alloc, at, requirement, &key)?)
            }
            None => self.collected_by_name(alloc, at, requirement),
        }
    }

    fn collected_by_name(
        &self,
        alloc: Global,
        at: ReqRef,
        requirement: &Requirement,
    ) -> Result<BTreeSet<Ranked>, AllocError>
        ensures collected { IfOk result (λ found. IsFit self.now → Asks self.now at requirement.now
            → Collects self.now at found) }
    {
        let mut found = BTreeSet::new(alloc);
        let places = self.index.names.capabilities.of(&requirement.name);
        self.add_places(alloc, &mut found, at, requirement, places)?;
        Ok(found)
    }

    /// The candidates where each of them has the text.
    fn collected_by_text(
        &self,
        alloc: Global,
        at: ReqRef,
        requirement: &Requirement,
        key: &TextKey,
    ) -> Result<BTreeSet<Ranked>, AllocError>
        ensures collected { IfOk result (λ found. IsFit self.now → Asks self.now at requirement.now
            → AsksText requirement.now key.now → Collects self.now at found) }
    {
        let texts = &self.index.names.texts;
        let mut found = BTreeSet::new(alloc);
        self.add_places(alloc, &mut found, at, requirement, texts.texts.of(key))?;
        self.add_places(
            alloc,
            &mut found,
            at,
            requirement,
            texts.others.of(&key.attribute),
        )?;
        self.add_places(
            alloc,
            &mut found,
            at,
            requirement,
            texts.many.of(&key.attribute.name),
        )?;
        Ok(found)
    }

    /// Adds the candidates that are the capabilities at these places.
    fn add_places(
        &self,
        alloc: Global,
        found: &mut BTreeSet<Ranked>,
        at: ReqRef,
        requirement: &Requirement,
        places: &[Place],
    ) -> Result<(), AllocError>
        ensures added { OnOk result (IsFit self.now → Asks self.now at requirement.now
            → Extends self.now at found.old found.new (IsAtSome places.now)) }
    {
        for place in places {
            self.add_place(alloc, found, at, requirement, *place)?;
        }
        Ok(())
    }

    /// Adds the candidates that are the capability at this place: of its owner, or of a host that the owner is a fragment of.
    fn add_place(
        &self,
        alloc: Global,
        found: &mut BTreeSet<Ranked>,
        at: ReqRef,
        requirement: &Requirement,
        place: Place,
    ) -> Result<(), AllocError>
        ensures added { OnOk result (IsFit self.now → Asks self.now at requirement.now
            → Extends self.now at found.old found.new (IsAt place)) }
    {
        self.add_candidate(alloc, found, at, requirement, place, place.owner)?;
        if let Some(owner) = self.known.revision(place.owner) {
            if let Some(host) = &owner.host {
                let hosts = self.index.names.revisions.of(&host.name);
                self.add_hosts(alloc, found, at, requirement, place, hosts)?;
            }
        }
        Ok(())
    }

    fn add_hosts(
        &self,
        alloc: Global,
        found: &mut BTreeSet<Ranked>,
        at: ReqRef,
        requirement: &Requirement,
        place: Place,
        hosts: &[RevisionId],
    ) -> Result<(), AllocError>
        ensures added { OnOk result (IsFit self.now → Asks self.now at requirement.now
            → Extends self.now at found.old found.new (IsAtOf place hosts.now)) }
    {
        for host in hosts {
            self.add_candidate(alloc, found, at, requirement, place, *host)?;
        }
        Ok(())
    }

    /// Adds the capability at this place, as the provider has it, if it is a candidate.
    fn add_candidate(
        &self,
        alloc: Global,
        found: &mut BTreeSet<Ranked>,
        at: ReqRef,
        requirement: &Requirement,
        place: Place,
        provider: RevisionId,
    ) -> Result<(), AllocError>
        ensures added { OnOk result (IsFit self.now → Asks self.now at requirement.now
            → Extends self.now at found.old found.new (IsOf place provider)) }
    {
        let capability = CapRef {
            provider,
            owner: place.owner,
            index: place.index,
        };
        if self.is_candidate(at, requirement, capability) {
            found.insert(self.ranked(alloc, capability)?)?;
        }
        Ok(())
    }
}
