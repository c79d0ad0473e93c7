//! Which revisions a fragment matches.

ghost use Rattle.std.specs.Prelude.{◌≡◌};
ghost use Rattle.osgi_world.specs.Satisfaction.{matches_host};

use osgi_lookup::matches_host;
use osgi_world::Revision;

/// Whether the first is a fragment, and the second has the name and a version in the range that it asks its host for, permits
/// fragments, and is no fragment.
pub fn host_matches(fragment: &Revision, host: &Revision) -> bool
    ensures matches { result ≡ matches_host fragment.now host.now }
{
    matches_host(fragment, host)
}
