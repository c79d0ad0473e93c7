//! What is wrong with the clauses of a header.

use osgi_world::ManifestKind;

/// What is wrong with a header's value: the kind, and the byte at which the first faulty clause begins.
#[derive(Clone, Copy, PartialEq, Eq)]
pub struct ClauseFault {
    pub kind: ManifestKind,
    pub at: u64,
}
