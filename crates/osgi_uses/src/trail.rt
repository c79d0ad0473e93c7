//! What was added to wirings, to be taken back.

use osgi_base::RevisionId;
use osgi_space_rows::Added;
use osgi_world::Wire;

/// What was added to the wirings.
#[derive(Clone, Copy, PartialEq, Eq)]
pub enum Addition {
    /// A fragment, the second, to a host, the first.
    Attached(RevisionId, RevisionId),
    /// A wire to a revision.
    Wired(RevisionId, Wire),
}

/// What was added to the wirings, and the row that it added.
#[derive(Clone, Copy, PartialEq, Eq)]
pub struct Taken {
    pub addition: Addition,
    pub added: Added,
}
