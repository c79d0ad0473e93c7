//! Whether a text stands twice in a list.

ghost use Rattle.std.specs.Prelude.{◌≢◌, ◌++◌, ℕ, List, AllPairs, IfOk, MatchBool};
ghost use Rattle.osgi_package.specs.computed.ImportReader.{AreNew, AreSeen};

use osgi_base::Text;
use std::alloc::{AllocError, Global};
use std::collections::BTreeSet;

/// Adds texts to those that were seen; false where one was seen before.
pub(crate) fn add_texts(
    alloc: Global,
    seen: &mut BTreeSet<Text>,
    texts: &[Text],
) -> Result<bool, AllocError>
    ensures new { (before : List (List ℕ)) → AreSeen seen.old before → IfOk result (AreNew seen.new (before ++ texts.now)) }
{
    for text in texts {
        let is_new = seen.insert(text.copy(alloc)?)?;
        if !is_new {
            return Ok(false);
        }
    }
    Ok(true)
}

/// Whether no text stands twice.
pub fn are_distinct(alloc: Global, texts: &[Text]) -> Result<bool, AllocError>
    ensures distinct { IfOk result (λ distinct. MatchBool distinct (AllPairs ◌≢◌ texts.now) (¬ AllPairs ◌≢◌ texts.now)) }
{
    let mut seen = BTreeSet::new(alloc);
    add_texts(alloc, &mut seen, texts)
}
