//! What a step adds to rows.

use crate::rows::{Attachment, Import, Required};

/// The row that a wire or a fragment adds, if it adds one. A wire to neither a package nor a bundle adds none.
#[derive(Clone, Copy, PartialEq, Eq)]
pub enum Added {
    Import(Import),
    Required(Required),
    Attachment(Attachment),
    Nothing,
}
