//! The words of a row.

use cases_text::split_word;
use osgi_base::BundleId;

/// The number that a word writes; the greatest where it writes none.
pub fn number(word: &str) -> u32 {
    word.parse().unwrap_or(u32::MAX)
}

/// The bundle that a text begins with, and what stands after it.
pub fn split_bundle(text: &str) -> (BundleId, &str) {
    let (bundle, rest) = split_word(text);
    (BundleId(number(bundle)), rest)
}
