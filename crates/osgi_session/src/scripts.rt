//! The scripts of the bundles that a session names.

use crate::script::Script;
use osgi_base::List;

/// A script for each row of a depot, in the order of the rows. A row that has none here counts as one whose script has no sections.
pub struct Scripts {
    pub rows: List<Script>,
}

/// Not derived, so that each exit at which one is dropped is a single call, which is cheap to prove.
impl Drop for Scripts {
    fn drop(self) {
        let Scripts { rows: _ } = self;
    }
}
