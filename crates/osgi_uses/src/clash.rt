//! A clash of uses.

use osgi_base::{List, RevisionId, Text};

/// A violated clause of `uses`: a revision has an implied constraint for the package, and it and the one that sees the package
/// each have a source of it that the other lacks.
#[derive(Drop, PartialEq, Eq)]
pub struct Clash {
    pub revision: RevisionId,
    pub package: Text,
    /// The revision's sources of the package, rising.
    pub ours: List<RevisionId>,
    /// The sources for the one that sees the package, rising.
    pub theirs: List<RevisionId>,
}
