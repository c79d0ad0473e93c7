//! Violated uses clauses.

use osgi_base::{RevisionId, Text};

/// A package, and two revisions that each have a source of it that the other lacks: the first has an implied constraint for it,
/// as the second sees it.
#[derive(Drop, PartialEq, Eq)]
pub struct Violation {
    pub revision: RevisionId,
    pub seen_by: RevisionId,
    pub package: Text,
}
