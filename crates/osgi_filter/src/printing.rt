//! The texts of filters.

ghost use Rattle.std.specs.Prelude.{◌≡◌, ℕ, List, ◌∷◌, ◌++◌, OnOk, IfOk, map};
ghost use Rattle.std.specs.List.{concat};
ghost use Rattle.osgi_model.specs.Filters.{ReadsFilter};
ghost use Rattle.osgi_model.specs.FilterTexts.{value_text, starred, test_text, filter_text};

use crate::scan::is_plain;
use osgi_base::Text;
use osgi_model::{Filter, Test};
use std::alloc::{AllocError, Global};

fn print_value(out: &mut Vec<u8>, value: &[u8]) -> Result<(), AllocError>
    ensures text { OnOk result (out.new.items ≡ out.old.items ++ value_text value.now) }
{
    for b in value {
        if !is_plain(true, *b) {
            out.push(b'\\')?;
        }
        out.push(*b)?;
    }
    Ok(())
}

/// Pieces with `*` between them.
fn print_pieces(out: &mut Vec<u8>, first: &Text, others: &[Text]) -> Result<(), AllocError>
    ensures text { OnOk result (out.new.items ≡ out.old.items ++ starred (first.now ∷ others.now)) }
{
    let mut piece = first;
    let mut pieces = others;
    while let [next, more @ ..] = pieces {
        print_value(out, piece.bytes())?;
        out.push(b'*')?;
        piece = next;
        pieces = more;
    }
    print_value(out, piece.bytes())
}

fn print_test(out: &mut Vec<u8>, test: &Test) -> Result<(), AllocError>
    ensures text { OnOk result (out.new.items ≡ out.old.items ++ test_text test.now) }
{
    match test {
        Test::Equal(value) => {
            out.push(b'=')?;
            print_value(out, value.bytes())
        }
        Test::Approx(value) => {
            out.extend_from_slice(b"~=")?;
            print_value(out, value.bytes())
        }
        Test::AtLeast(value) => {
            out.extend_from_slice(b">=")?;
            print_value(out, value.bytes())
        }
        Test::AtMost(value) => {
            out.extend_from_slice(b"<=")?;
            print_value(out, value.bytes())
        }
        Test::Present => {
            out.extend_from_slice(b"=*")?;
            Ok(())
        }
        Test::Pieces(pieces) => {
            out.push(b'=')?;
            match pieces.items() {
                [] => Ok(()),
                [first, others @ ..] => print_pieces(out, first, others),
            }
        }
    }
}

#[cycle(printing)]
fn print_all(out: &mut Vec<u8>, filters: &[Filter]) -> Result<(), AllocError>
    ensures text { OnOk result (out.new.items ≡ out.old.items ++ concat (map filter_text filters.now)) }
{
    for filter in filters {
        print_filter(out, filter)?;
    }
    Ok(())
}

#[cycle(printing)]
fn print_filter(out: &mut Vec<u8>, filter: &Filter) -> Result<(), AllocError>
    ensures text { OnOk result (out.new.items ≡ out.old.items ++ filter_text filter.now) }
{
    out.push(b'(')?;
    match filter {
        Filter::And(filters) => {
            out.push(b'&')?;
            print_all(out, filters.items())?;
        }
        Filter::Or(filters) => {
            out.push(b'|')?;
            print_all(out, filters.items())?;
        }
        Filter::Not(one) => {
            out.push(b'!')?;
            print_filter(out, one.get())?;
        }
        Filter::Item { name, test } => {
            out.extend_from_slice(name.bytes())?;
            print_test(out, test)?;
        }
    }
    out.push(b')')?;
    Ok(())
}

/// The filter's text, without white space but for that inside names and values. Where some text reads as the filter, this one
/// does too.
pub fn print(alloc: Global, filter: &Filter) -> Result<Text, AllocError>
    ensures prints { IfOk result (λ t. t ≡ filter_text filter.now) }
    ensures reads_back { (text : List ℕ) → ReadsFilter text filter.now → IfOk result (λ t. ReadsFilter t filter.now) }
{
    let mut out = Vec::new(alloc);
    print_filter(&mut out, filter)?;
    let text = Text::from_vec(alloc, out)?;
    Ok(text)
}
