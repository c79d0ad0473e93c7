//! A wire of a revision.

use osgi_base::RevisionId;
use osgi_world::Wire;

#[derive(Clone, Copy, PartialEq, Eq)]
pub struct Wired {
    pub revision: RevisionId,
    pub wire: Wire,
}
