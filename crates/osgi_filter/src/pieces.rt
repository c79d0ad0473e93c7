//! Texts in which pieces stand.

ghost use Rattle.std.specs.Prelude.{◌↔◌, ◌∷◌, ◌++◌, [], IsTrue};
ghost use Rattle.osgi_model.specs.Matching.{Stand};
ghost use Rattle.osgi_filter.specs.computed.Between.{Between};

use memchr::memmem;
use osgi_base::Text;

/// Whether the pieces stand in the text in order without overlap. Each is taken at the first place where it stands,
/// which leaves the others the most room.
fn stand_between(pieces: &[Text], text: &[u8]) -> bool
    ensures stand { IsTrue result ↔ Between pieces.now text.now }
{
    let mut rest = text;
    for piece in pieces {
        let Some(at) = memmem::find(rest, piece.bytes()) else {
            return false;
        };
        rest = rest.split_at(at + piece.bytes().len()).1;
    }
    true
}

/// Whether the first piece begins the text, the last ends it, and the others stand between.
fn stand_round(first: &[u8], between: &[Text], last: &[u8], text: &[u8]) -> bool
    ensures stand { IsTrue result ↔ Stand (first.now ∷ (between.now ++ last.now ∷ [])) text.now }
{
    let Some(remainder) = text.strip_prefix(first) else {
        return false;
    };
    let Some(middle) = remainder.strip_suffix(last) else {
        return false;
    };
    stand_between(between, middle)
}

/// Whether the pieces stand in the text so that the first begins it and the last ends it.
pub fn stand(pieces: &[Text], text: &[u8]) -> bool
    ensures stand { IsTrue result ↔ Stand pieces.now text.now }
{
    let Some((last, others)) = pieces.split_last() else {
        return false;
    };
    match others.split_first() {
        None => text == last.bytes(),
        Some((first, between)) => stand_round(first.bytes(), between, last.bytes(), text),
    }
}
