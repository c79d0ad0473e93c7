//! Requirements, found by their places.

ghost use Rattle.std.specs.Prelude.{◌≡◌, ◌↔◌, ◌++◌, IsTrue, slice_get};
ghost use Rattle.std.specs.Option.{option_copied};
ghost use Rattle.osgi_world.specs.Lookups.{is_dynamic, is_effective, is_multiple, is_optional, is_reexport, requirement_at, requirement_namespace, IsNeeded};

use crate::index::KnownIndex;
use osgi_world::{ReqRef, Requirement, Revision};

impl<'w> KnownIndex<'w> {
    /// The requirement at a place. The places of dynamic imports are those after all requirements.
    pub fn requirement(&self, at: ReqRef) -> Option<&'w Requirement>
        ensures requirement { option_copied result ≡ requirement_at self.now at }
    {
        let revision = self.revision(at.owner)?;
        requirement_of(revision, at.index as usize)
    }

    /// Whether a dynamic import stands at the place.
    pub fn is_dynamic(&self, at: ReqRef) -> bool
        ensures dynamic { result ≡ is_dynamic self.now at }
    {
        let index = at.index as usize;
        let count = self.requirement_count(at.owner);
        index >= count && index - count < self.dynamic_count(at.owner)
    }

    /// The bytes of its namespace; none where there is no such requirement.
    pub fn requirement_namespace(&self, at: ReqRef) -> &'w [u8]
        ensures namespace { result.now ≡ requirement_namespace self.now at }
    {
        match self.requirement(at) {
            Some(requirement) => requirement.namespace.bytes(),
            None => &[],
        }
    }

    /// Whether it takes part in resolving.
    pub fn is_effective(&self, at: ReqRef) -> bool
        ensures effective { result ≡ is_effective self.now at }
    {
        self.requirement(at)
            .map_or(false, |requirement| requirement.effective)
    }

    /// Whether it may stay without a wire, as what is not known may.
    pub fn is_optional(&self, at: ReqRef) -> bool
        ensures optional { result ≡ is_optional self.now at }
    {
        self.requirement(at)
            .map_or(true, |requirement| requirement.optional)
    }

    /// Whether it may have several wires, as a dynamic import always may.
    pub fn is_multiple(&self, at: ReqRef) -> bool
        ensures multiple { result ≡ is_multiple self.now at }
    {
        self.is_dynamic(at)
            || self
                .requirement(at)
                .map_or(false, |requirement| requirement.multiple)
    }

    /// Whether those who require the bundle see what it requires here.
    pub fn is_reexport(&self, at: ReqRef) -> bool
        ensures reexport { result ≡ is_reexport self.now at }
    {
        self.requirement(at)
            .map_or(false, |requirement| requirement.reexport)
    }

    /// Whether it is effective and mandatory.
    pub fn is_needed(&self, at: ReqRef) -> bool
        ensures needed { IsTrue result ↔ IsNeeded self.now at }
    {
        self.is_effective(at) && !self.is_optional(at)
    }
}

/// The requirement of a revision at a place.
fn requirement_of(revision: &Revision, index: usize) -> Option<&Requirement>
    ensures requirement { option_copied result ≡ slice_get (revision.now.requirements ++ revision.now.dynamics) index }
{
    let requirements = revision.requirements.items();
    let count = requirements.len();
    if index < count {
        return requirements.get(index);
    }
    revision.dynamics.items().get(index - count)
}
