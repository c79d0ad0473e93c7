//! What comes after the step that is under way.

use crate::at::At;
use crate::kept::Kept;

pub struct Rest {
    /// Where the plan waits.
    pub at: At,
    pub kept: Kept,
}

/// Not derived, so that each exit at which one is dropped is a single call, which is cheap to prove.
impl Drop for Rest {
    fn drop(self) {
        let Rest { at: _, kept: _ } = self;
    }
}
