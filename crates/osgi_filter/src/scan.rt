//! Bytes, white space and names.

ghost use Rattle.std.specs.Prelude.{◌≡◌, []};
ghost use Rattle.osgi_version.specs.Bytes.{is_blank};
ghost use Rattle.osgi_model.specs.Filters.{is_item_name_byte, is_plain};
ghost use Rattle.osgi_filter.specs.computed.Given.{ReadsAs};
ghost use Rattle.osgi_filter.specs.computed.Reader.{skip, name_at, after};

use osgi_base::{Stop, Text};
use std::alloc::Global;

/// White space.
fn is_blank(b: u8) -> bool
    ensures blank { result ≡ is_blank b }
{
    matches!(b, b'\t' | b'\n' | 12 | b'\r' | b' ')
}

/// A byte of a name.
fn is_item_name_byte(b: u8) -> bool
    ensures name { result ≡ is_item_name_byte b }
{
    !matches!(b, b'=' | b'<' | b'>' | b'~' | b'(' | b')')
}

/// A byte of a value that stands for itself, where stars cut or do not.
pub fn is_plain(stars: bool, b: u8) -> bool
    ensures plain { result ≡ is_plain stars b }
{
    match b {
        b'(' | b')' | b'\\' => false,
        b'*' => !stars,
        _ => true,
    }
}

/// What is left after the white space at the start.
pub fn skip(bytes: &[u8]) -> &[u8]
    ensures rest { result.now ≡ skip bytes.now }
{
    let mut rest = bytes;
    while let [b, remainder @ ..] = rest {
        if !is_blank(*b) {
            return rest;
        }
        rest = remainder;
    }
    rest
}

/// What is left after the wanted byte.
pub fn after(wanted: u8, bytes: &[u8]) -> Result<&[u8], Stop<usize>>
    ensures rest { ReadsAs (λ rest. rest.now) result (after wanted bytes.now) }
{
    match bytes {
        [b, rest @ ..] if *b == wanted => Ok(rest),
        _ => Err(Stop::Fault(bytes.len())),
    }
}

/// The bytes of a name without the white space after it, and what is left after that.
pub fn name_at(alloc: Global, bytes: &[u8]) -> Result<(Text, &[u8]), Stop<usize>>
    ensures name { ReadsAs (λ x. (x.0, x.1.now)) result (name_at [] [] bytes.now) }
{
    let mut end = 0;
    for (at, b) in bytes.iter().enumerate() {
        if !is_item_name_byte(*b) {
            return Ok((Text::of(alloc, &bytes[..end])?, &bytes[at..]));
        }
        if !is_blank(*b) {
            end = at + 1;
        }
    }
    Err(Stop::Fault(0))
}
