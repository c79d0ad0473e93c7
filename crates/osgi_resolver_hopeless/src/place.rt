//! What is known where a search stands.

ghost use Rattle.std.specs.Prelude.{◌≡◌};

use osgi_lookup::KnownIndex;
use osgi_resolver_path::Path;

/// The known revisions.
pub fn known_at<'p, 'w>(path: &'p Path<'w>) -> &'p KnownIndex<'w>
    ensures known { result.now ≡ path.now.world.known }
{
    path.offers().known()
}
