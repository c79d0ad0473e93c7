//! Filters: items, and what is made of them.

ghost use Rattle.std.specs.Prelude.{◌≡◌, []};
ghost use Rattle.osgi_filter.specs.computed.Given.{ReadsAs};
ghost use Rattle.osgi_filter.specs.computed.Reader.{is_composing, opens, listing, composed_at, filter_at, not_at, inside, level_at, whole_at};

use crate::items::item_at;
use crate::scan::{after, skip};
use osgi_base::{Boxed, List, Stop};
use osgi_model::{Filter, MAX_LEVELS};
use std::alloc::Global;

fn is_composing(sign: u8) -> bool
    ensures composing { result ≡ is_composing sign }
{
    matches!(sign, b'!' | b'&' | b'|')
}

fn opens(bytes: &[u8]) -> bool
    ensures opens { result ≡ opens bytes.now }
{
    matches!(bytes, [b'(', ..])
}

/// A filter of at most so many levels, and what is left after it.
#[cycle(filters)]
fn filter_at(alloc: Global, levels: u32, bytes: &[u8]) -> Result<(Filter, &[u8]), Stop<usize>>
    ensures filter { ReadsAs (λ x. (x.0, x.1.now)) result (filter_at levels bytes.now) }
{
    if levels == 0 {
        return Err(Stop::Fault(bytes.len()));
    }
    level_at(alloc, levels - 1, bytes)
}

/// A filter over others of at most so many levels.
#[cycle(filters)]
fn level_at(alloc: Global, levels: u32, bytes: &[u8]) -> Result<(Filter, &[u8]), Stop<usize>>
    ensures filter { ReadsAs (λ x. (x.0, x.1.now)) result (level_at (filter_at levels) bytes.now) }
{
    let inner = after(b'(', bytes)?;
    inside(alloc, levels, inner)
}

/// What follows a `(`. A name may begin as a composed filter does, so that is told by the `(` of its first operand.
#[cycle(filters)]
fn inside(alloc: Global, levels: u32, bytes: &[u8]) -> Result<(Filter, &[u8]), Stop<usize>>
    ensures filter { ReadsAs (λ x. (x.0, x.1.now)) result (inside (filter_at levels) bytes.now) }
{
    match bytes {
        [] => Err(Stop::Fault(0)),
        [sign, remainder @ ..] => {
            if is_composing(*sign) {
                let operands = skip(remainder);
                if opens(operands) {
                    return composed_at(alloc, levels, *sign, operands);
                }
            }
            item_at(alloc, bytes)
        }
    }
}

/// The operands of a `!`, `&` or `|`.
#[cycle(filters)]
fn composed_at(
    alloc: Global,
    levels: u32,
    sign: u8,
    bytes: &[u8],
) -> Result<(Filter, &[u8]), Stop<usize>>
    ensures filter { ReadsAs (λ x. (x.0, x.1.now)) result (composed_at (filter_at levels) sign bytes.now) }
{
    if sign == b'!' {
        return not_at(alloc, levels, bytes);
    }
    let (filters, rest) = operands_at(alloc, levels, bytes)?;
    if sign == b'&' {
        Ok((Filter::And(filters), rest))
    } else {
        Ok((Filter::Or(filters), rest))
    }
}

#[cycle(filters)]
fn not_at(alloc: Global, levels: u32, bytes: &[u8]) -> Result<(Filter, &[u8]), Stop<usize>>
    ensures filter { ReadsAs (λ x. (x.0, x.1.now)) result (not_at (filter_at levels) bytes.now) }
{
    let (one, remainder) = filter_at(alloc, levels, bytes)?;
    let rest = after(b')', skip(remainder))?;
    Ok((Filter::Not(Boxed::new(alloc, one)?), rest))
}

#[cycle(filters)]
fn operands_at(
    alloc: Global,
    levels: u32,
    bytes: &[u8],
) -> Result<(List<Filter>, &[u8]), Stop<usize>>
    ensures filters { ReadsAs (λ x. (x.0, x.1.now)) result (listing (filter_at levels) [] bytes.now) }
{
    let mut filters = List::new(alloc)?;
    let mut rest = skip(bytes);
    while let [b, more @ ..] = rest {
        if *b == b')' {
            return Ok((filters, more));
        }
        let (one, remainder) = filter_at(alloc, levels, rest)?;
        filters.push(one)?;
        rest = skip(remainder);
    }
    Err(Stop::Fault(0))
}

/// The filter that a text is, with white space round it.
pub fn whole_at(alloc: Global, bytes: &[u8]) -> Result<Filter, Stop<usize>>
    ensures filter { ReadsAs (λ filter. filter) result (whole_at bytes.now) }
{
    let (filter, remainder) = filter_at(alloc, MAX_LEVELS, skip(bytes))?;
    match skip(remainder) {
        [] => Ok(filter),
        rest => Err(Stop::Fault(rest.len())),
    }
}
