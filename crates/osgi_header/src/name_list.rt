//! The names that a directive's value lists.

ghost use Rattle.std.specs.Prelude.{◌≡◌, ℕ, List, IfOk};
ghost use Rattle.osgi_header.specs.NameLists.{AreNames};
ghost use Rattle.osgi_header.specs.computed.NameReader.{names_of};

use crate::blanks::trim;
use osgi_base::{List, Text};
use std::alloc::{AllocError, Global};

fn listed(alloc: Global, text: &[u8]) -> Result<List<Text>, AllocError>
    ensures names { IfOk result (λ names. names ≡ names_of text.now) }
{
    let mut names = List::new(alloc)?;
    for part in text.split(|b| *b == b',') {
        names.push(Text::of(alloc, trim(part))?)?;
    }
    Ok(names)
}

/// The names that a directive's value lists, with commas between them; spaces and tabs round a name are dropped.
///
/// The empty text lists one empty name.
pub fn names(alloc: Global, text: &[u8]) -> Result<List<Text>, AllocError>
    ensures reads { IfOk result (AreNames text.now) }
    ensures only { (others : List (List ℕ)) → AreNames text.now others → IfOk result (λ names. names ≡ others) }
{
    listed(alloc, text)
}
