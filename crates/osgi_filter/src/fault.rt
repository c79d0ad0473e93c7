//! Why a text is no filter.

use thiserror::Error;

/// `at` is the length of the longest prefix of the text that begins some text of a filter.
#[derive(Clone, Copy, Debug, PartialEq, Eq, Error)]
#[error("not a filter at {at}")]
pub struct FilterFault {
    pub at: u64,
}
