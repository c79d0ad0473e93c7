//! The fragments that may be attached to a host.

ghost use Rattle.std.specs.Prelude.{◌≡◌, ◌↔◌, IfOk, IsTrue, OnOk, map};
ghost use Rattle.std.specs.BTreeSet.{IsOrdered};
ghost use Rattle.osgi_candidates.specs.computed.Fragments.{AreAttachable, AreBundled, IsMatchOf, bundled_cmp, fragment_of};
ghost use Rattle.osgi_candidates.specs.computed.Fitting.{IsFit};

use crate::offers::Offers;
use osgi_base::{BundleId, RevisionId};
use osgi_fragment::host_matches;
use osgi_world::Revision;
use std::alloc::{AllocError, Global};
use std::collections::BTreeSet;

/// A fragment with its bundle.
#[derive(Clone, Copy, PartialEq, Eq, PartialOrd, Ord)]
pub struct Bundled {
    pub bundle: BundleId,
    pub fragment: RevisionId,
}

impl Offers<'_> {
    /// The current fragments that match the host, by bundle id.
    pub(crate) fn attachable(
        &self,
        alloc: Global,
        host: RevisionId,
    ) -> Result<Vec<RevisionId>, AllocError>
        ensures exact { IfOk result (λ list. IsFit self.now
            → AreAttachable self.now host list.items) }
    {
        match self.known.revision(host) {
            Some(revision) => {
                let among = self.index.names.fragments.of(&revision.name);
                let bundled = self.bundled(alloc, revision, among)?;
                Ok(by_bundle(alloc, &bundled)?)
            }
            None => Ok(Vec::new(alloc)),
        }
    }

    /// Those of the revisions that are current fragments and match the host, with their bundles.
    fn bundled(
        &self,
        alloc: Global,
        host: &Revision,
        among: &[RevisionId],
    ) -> Result<BTreeSet<Bundled>, AllocError>
        ensures bundled { IfOk result (λ set.
            AreBundled self.now.known host.now among.now set.keys) }
    {
        let mut bundled = BTreeSet::new(alloc);
        for fragment in among {
            if self.is_match(*fragment, host) {
                bundled.insert(Bundled {
                    bundle: self.known.bundle_of(*fragment),
                    fragment: *fragment,
                })?;
            }
        }
        Ok(bundled)
    }

    /// Whether the revision is a current fragment that matches the host.
    fn is_match(&self, fragment: RevisionId, host: &Revision) -> bool
        ensures matches { IsTrue result ↔ IsMatchOf self.now.known host.now fragment }
    {
        match self.known.known(fragment) {
            Some(known) => known.current && host_matches(known.revision.get(), host),
            None => false,
        }
    }
}

/// The fragments, by bundle id.
fn by_bundle(alloc: Global, bundled: &BTreeSet<Bundled>) -> Result<Vec<RevisionId>, AllocError>
    ensures fragments { IfOk result (λ list. list.items ≡ map fragment_of bundled.now.keys) }
    ensures ordered { OnOk result (IsOrdered bundled_cmp bundled.now) }
{
    let mut list = Vec::with_capacity(alloc, bundled.len())?;
    for one in bundled {
        list.push(one.fragment)?;
    }
    Ok(list)
}
