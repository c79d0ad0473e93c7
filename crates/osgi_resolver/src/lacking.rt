//! The first requirement of a root that nothing can meet.

ghost use Rattle.std.specs.Prelude.{◌≡◌, ◌↔◌, ◌<◌, IsTrue};
ghost use Rattle.osgi_resolver.specs.Answers.{IsCause};
ghost use Rattle.osgi_resolver_path.specs.Standing.{At};
ghost use Rattle.osgi_world.specs.Candidates.{IsLacking};
ghost use Rattle.osgi_world.specs.Lookups.{requirement_count};

use crate::answer::Cause;
use osgi_resolver_path::Path;
use osgi_world::ReqRef;

/// Whether the root's requirement is needed, and has no candidate.
fn is_lacking(path: &Path, requirement: ReqRef) -> bool
    ensures lacking { At path.now (λ P _. requirement.owner ≡ P.root
        → requirement.index < requirement_count P.world.known P.root
        → IsTrue result ↔ IsLacking P requirement) }
{
    if !path.offers().known().is_needed(requirement) {
        return false;
    }
    path.candidates(requirement).is_empty()
}

/// Why nothing can be chosen for the root.
pub fn cause_of(path: &Path) -> Cause
    ensures cause { At path.now (λ P _. IsCause P result) }
{
    let root = path.root();
    for index in 0..path.offers().known().requirement_count(root) {
        let requirement = ReqRef {
            owner: root,
            index: index as u32,
        };
        if is_lacking(path, requirement) {
            return Cause::NoCandidate(requirement);
        }
    }
    Cause::Clash
}
