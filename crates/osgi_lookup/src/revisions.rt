//! Revisions, found by their ids.

ghost use Rattle.std.specs.Prelude.{◌≡◌, ◌<◌, ◌^◌};
ghost use Rattle.std.specs.Option.{option_copied};
ghost use Rattle.osgi_world.specs.Lookups.{bundle_of, capability_count, dynamic_count, is_current, is_fragment, is_host_of, is_singleton, requirement_count, revision_at};

use crate::hosts::matches_host;
use crate::index::KnownIndex;
use osgi_base::{BundleId, RevisionId};
use osgi_world::Revision;

impl<'w> KnownIndex<'w> {
    pub fn revision(&self, id: RevisionId) -> Option<&'w Revision>
        ensures revision { option_copied result ≡ revision_at self.now id }
    {
        self.known(id).map(|known| known.revision.get())
    }

    pub fn is_current(&self, id: RevisionId) -> bool
        ensures current { result ≡ is_current self.now id }
    {
        self.known(id).map_or(false, |known| known.current)
    }

    /// The bundle that the revision is of; bundle 0 where it is not known.
    pub fn bundle_of(&self, id: RevisionId) -> BundleId
        ensures bundle { result.0 ≡ bundle_of self.now id }
    {
        self.known(id).map_or(BundleId(0), |known| known.bundle)
    }

    pub fn is_fragment(&self, id: RevisionId) -> bool
        ensures fragment { result ≡ is_fragment self.now id }
    {
        self.revision(id)
            .map_or(false, |revision| revision.host.is_some())
    }

    pub fn is_singleton(&self, id: RevisionId) -> bool
        ensures singleton { result ≡ is_singleton self.now id }
    {
        self.revision(id)
            .map_or(false, |revision| revision.singleton)
    }

    /// How many requirements the revision has, dynamic imports not counted.
    pub fn requirement_count(&self, id: RevisionId) -> usize
        ensures count { result ≡ requirement_count self.now id }
        ensures fits { result < 2 ^ 32 }
    {
        match self.revision(id) {
            Some(revision) => revision.requirements.items().len(),
            None => 0,
        }
    }

    pub fn dynamic_count(&self, id: RevisionId) -> usize
        ensures count { result ≡ dynamic_count self.now id }
        ensures fits { result < 2 ^ 32 }
    {
        match self.revision(id) {
            Some(revision) => revision.dynamics.items().len(),
            None => 0,
        }
    }

    pub fn capability_count(&self, id: RevisionId) -> usize
        ensures count { result ≡ capability_count self.now id }
        ensures fits { result < 2 ^ 32 }
    {
        match self.revision(id) {
            Some(revision) => revision.capabilities.items().len(),
            None => 0,
        }
    }

    /// Whether the first is a fragment that matches the second by name and range, and the second permits fragments and is none.
    pub fn is_host_of(&self, fragment: RevisionId, host: RevisionId) -> bool
        ensures host { result ≡ is_host_of self.now fragment host }
    {
        let Some(fragment) = self.revision(fragment) else {
            return false;
        };
        let Some(host) = self.revision(host) else {
            return false;
        };
        matches_host(fragment, host)
    }
}
