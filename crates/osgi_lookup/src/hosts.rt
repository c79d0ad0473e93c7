//! Whether a revision may be the host of a fragment.

ghost use Rattle.std.specs.Prelude.{◌≡◌};
ghost use Rattle.osgi_world.specs.Satisfaction.{is_host_for, matches_host};

use osgi_world::{Requirement, Revision};

/// Whether the revision is one that a fragment with this requirement may attach to.
fn is_host_for(asked: &Requirement, host: &Revision) -> bool
    ensures host { result ≡ is_host_for asked.now host.now }
{
    asked.name == host.name
        && asked.range.contains(&host.version)
        && host.attach
        && host.host.is_none()
}

/// Whether the first is a fragment, and the second may be its host.
pub fn matches_host(fragment: &Revision, host: &Revision) -> bool
    ensures host { result ≡ matches_host fragment.now host.now }
{
    match &fragment.host {
        Some(asked) => is_host_for(asked, host),
        None => false,
    }
}
