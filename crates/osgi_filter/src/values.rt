//! The values of items, as they stand between an operator and the `)`.

ghost use Rattle.std.specs.Prelude.{◌∷◌, [], true, false};
ghost use Rattle.osgi_filter.specs.computed.Given.{ReadsAs};
ghost use Rattle.osgi_filter.specs.computed.Reader.{piece_at, value_at, starred_at, equal_at, plain_at};

use crate::scan::{after, is_plain};
use osgi_base::{List, Stop, Text};
use osgi_model::Test;
use std::alloc::Global;

/// A piece up to the `)` or `(`, or the `*` that cuts, and what is left from there.
fn piece_at(alloc: Global, stars: bool, bytes: &[u8]) -> Result<(Text, &[u8]), Stop<usize>>
    ensures piece { ReadsAs (λ x. (x.0, x.1.now)) result (piece_at stars false [] bytes.now) }
{
    for (at, b) in bytes.iter().enumerate() {
        if *b == b'\\' {
            return escaped_at(alloc, stars, &bytes[..at], &bytes[at..]);
        }
        if !is_plain(stars, *b) {
            return Ok((Text::of(alloc, &bytes[..at])?, &bytes[at..]));
        }
    }
    Err(Stop::Fault(0))
}

/// As `piece_at`, where the start of the piece was read.
fn escaped_at<'a>(
    alloc: Global,
    stars: bool,
    start: &[u8],
    bytes: &'a [u8],
) -> Result<(Text, &'a [u8]), Stop<usize>>
    ensures piece { ReadsAs (λ x. (x.0, x.1.now)) result (piece_at stars false start.now bytes.now) }
{
    let mut piece = Vec::new(alloc);
    piece.extend_from_slice(start)?;
    let mut escaped = false;
    let mut rest = bytes;
    while let [b, remainder @ ..] = rest {
        if escaped || is_plain(stars, *b) {
            piece.push(*b)?;
            escaped = false;
        } else if *b == b'\\' {
            escaped = true;
        } else {
            return Ok((Text::from_vec(alloc, piece)?, rest));
        }
        rest = remainder;
    }
    Err(Stop::Fault(0))
}

/// The first piece and those after its `*`, and what is left after the `)`.
fn pieces_at(alloc: Global, first: Text, bytes: &[u8]) -> Result<(List<Text>, &[u8]), Stop<usize>>
    ensures pieces { ReadsAs (λ x. (x.0, x.1.now)) result (value_at true false (first ∷ []) [] bytes.now) }
{
    let mut pieces = List::new(alloc)?;
    pieces.push(first)?;
    let mut rest = bytes;
    loop {
        let (piece, remainder) = piece_at(alloc, true, rest)?;
        pieces.push(piece)?;
        match remainder {
            [b'*', more @ ..] => rest = more,
            _ => return Ok((pieces, after(b')', remainder)?)),
        }
    }
}

/// What follows a first piece and its `*`, and what is left after the `)`. The lone `*` is presence.
fn starred_at(alloc: Global, first: Text, bytes: &[u8]) -> Result<(Test, &[u8]), Stop<usize>>
    ensures test { ReadsAs (λ x. (x.0, x.1.now)) result (starred_at first bytes.now) }
{
    match bytes {
        [b')', rest @ ..] if first.bytes().is_empty() => Ok((Test::Present, rest)),
        _ => {
            let (pieces, rest) = pieces_at(alloc, first, bytes)?;
            Ok((Test::Pieces(pieces), rest))
        }
    }
}

/// The value of an `=`, and what is left after the `)`.
pub fn equal_at(alloc: Global, bytes: &[u8]) -> Result<(Test, &[u8]), Stop<usize>>
    ensures test { ReadsAs (λ x. (x.0, x.1.now)) result (equal_at bytes.now) }
{
    let (first, remainder) = piece_at(alloc, true, bytes)?;
    match remainder {
        [b'*', more @ ..] => starred_at(alloc, first, more),
        _ => Ok((Test::Equal(first), after(b')', remainder)?)),
    }
}

/// The value of another operator, where `*` is a byte as others are, and what is left after the `)`.
pub fn plain_at(alloc: Global, bytes: &[u8]) -> Result<(Text, &[u8]), Stop<usize>>
    ensures value { ReadsAs (λ x. (x.0, x.1.now)) result (plain_at bytes.now) }
{
    let (value, remainder) = piece_at(alloc, false, bytes)?;
    Ok((value, after(b')', remainder)?))
}
