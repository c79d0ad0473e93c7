//! Texts cut at a separator, but not between quotes.

ghost use Rattle.std.specs.Prelude.{◌≡◌};
ghost use Rattle.osgi_header.specs.computed.Cutting.{is_open, left_after, BeginsWithPart};

use osgi_base::{QuoteState, part_len};

/// Splits off the first part: the part, and what is left after the separator, if one stands there.
pub fn split_part(separator: u8, text: &[u8]) -> (&[u8], Option<&[u8]>)
    ensures part { BeginsWithPart separator text.now result.0.now (left_after result.1) }
{
    let (part, rest) = text.split_at(part_len(separator, text));
    match rest {
        [_, left @ ..] => (part, Some(left)),
        [] => (part, None),
    }
}

/// Whether a quoted text in there does not end.
pub fn is_open(text: &[u8]) -> bool
    ensures open { result ≡ is_open text.now }
{
    let mut place = QuoteState::Bare;
    for b in text {
        place = place.after(*b);
    }
    !place.is_bare()
}
