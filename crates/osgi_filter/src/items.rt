//! Items: a name and a test.

ghost use Rattle.std.specs.Prelude.{◌≡◌};
ghost use Rattle.osgi_filter.specs.computed.Given.{ReadsAs};
ghost use Rattle.osgi_filter.specs.computed.Reader.{is_order, order_test, order_at, signed_at, item_at};

use crate::scan::{after, name_at, skip};
use crate::values::{equal_at, plain_at};
use osgi_base::{Stop, Text};
use osgi_model::{Filter, Test};
use std::alloc::Global;

/// The byte that begins `~=`, `>=` or `<=`.
fn is_order(sign: u8) -> bool
    ensures order { result ≡ is_order sign }
{
    matches!(sign, b'~' | b'>' | b'<')
}

fn order_test(sign: u8, value: Text) -> Test
    ensures test { result ≡ order_test sign value }
{
    match sign {
        b'~' => Test::Approx(value),
        b'>' => Test::AtLeast(value),
        _ => Test::AtMost(value),
    }
}

/// What follows the first byte of `~=`, `>=` or `<=`, up to the `)`.
fn order_at(alloc: Global, sign: u8, bytes: &[u8]) -> Result<(Test, &[u8]), Stop<usize>>
    ensures test { ReadsAs (λ x. (x.0, x.1.now)) result (order_at sign bytes.now) }
{
    let (value, rest) = plain_at(alloc, after(b'=', bytes)?)?;
    Ok((order_test(sign, value), rest))
}

/// An operator with its value, and what is left after the `)`.
fn signed_at(alloc: Global, bytes: &[u8]) -> Result<(Test, &[u8]), Stop<usize>>
    ensures test { ReadsAs (λ x. (x.0, x.1.now)) result (signed_at bytes.now) }
{
    match bytes {
        [b'=', rest @ ..] => equal_at(alloc, rest),
        [sign, rest @ ..] if is_order(*sign) => order_at(alloc, *sign, rest),
        _ => Err(Stop::Fault(bytes.len())),
    }
}

/// What follows the `(` of an item, and what is left after its `)`.
pub fn item_at(alloc: Global, bytes: &[u8]) -> Result<(Filter, &[u8]), Stop<usize>>
    ensures item { ReadsAs (λ x. (x.0, x.1.now)) result (item_at bytes.now) }
{
    let (name, rest) = name_at(alloc, skip(bytes))?;
    if name.bytes().is_empty() {
        return Err(Stop::Fault(rest.len()));
    }
    let (test, rest) = signed_at(alloc, rest)?;
    Ok((Filter::Item { name, test }, rest))
}
