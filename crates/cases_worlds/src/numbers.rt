//! Numbers and names of a row.

use osgi_base::{RevisionId, Text};
use std::alloc::{AllocError, Global};

/// The first word of a text, and what follows it.
pub fn cut(text: &str) -> (&str, &str) {
    text.split_once(' ').unwrap_or((text, ""))
}

/// The number that a text writes; 0 for another text.
pub fn number(text: &str) -> u32 {
    text.parse::<u32>().unwrap_or(0)
}

/// The revision whose id a text writes.
pub fn revision_id(text: &str) -> RevisionId {
    RevisionId(number(text))
}

/// The revisions whose ids a text has, with blanks between.
pub fn revision_ids(alloc: Global, text: &str) -> Result<Vec<RevisionId>, AllocError> {
    let mut revisions = Vec::new(alloc);
    for word in text.split_whitespace() {
        revisions.push(revision_id(word))?;
    }
    Ok(revisions)
}

pub fn text_of(alloc: Global, text: &str) -> Result<Text, AllocError> {
    Text::of(alloc, text.as_bytes())
}
