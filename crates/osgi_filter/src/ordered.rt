//! Numbers and versions, which are compared with what a test's text reads as.

ghost use Rattle.std.specs.Prelude.{◌≡◌, Some};
ghost use Rattle.std.specs.Option.{option_and_then, option_copied};
ghost use Rattle.std.specs.Ordering.{int_cmp};
ghost use Rattle.osgi_model.specs.computed.LongReader.{long_of};
ghost use Rattle.osgi_model.specs.computed.MatchReader.{long_order, order_passes, version_order};
ghost use Rattle.osgi_version.specs.VersionValues.{parts};
ghost use Rattle.osgi_filter.specs.computed.Ordered.{passes_by_order, read_by, text_of};

use osgi_base::Text;
use osgi_model::{Test, read_long};
use osgi_version::Version;
use std::cmp::Ordering;

/// The text that a test compares values with.
pub fn text_of(test: &Test) -> Option<&Text>
    ensures text { option_copied result ≡ text_of test.now }
{
    match test {
        Test::Equal(text) => Some(text),
        Test::Approx(text) => Some(text),
        Test::AtLeast(text) => Some(text),
        Test::AtMost(text) => Some(text),
        Test::Present => None,
        Test::Pieces(_) => None,
    }
}

/// The number that the text reads as.
pub fn number_of(test: &Test) -> Option<i64>
    ensures number { result ≡ read_by long_of test.now }
{
    match text_of(test) {
        Some(text) => read_long(text.bytes()),
        None => None,
    }
}

/// How a number stands to the one that was read.
pub fn compare_number(given: i64, read: Option<i64>) -> Option<Ordering>
    ensures order { result ≡ option_and_then (λ number. Some (int_cmp given number)) read }
{
    let number = read?;
    Some(given.cmp(&number))
}

/// How a version stands to the one that the text reads as.
fn compare_version(given: &Version, test: &Test) -> Option<Ordering>
    ensures order { result ≡ read_by (version_order (parts given.now)) test.now }
{
    match text_of(test) {
        Some(text) => given.compare_text(text.bytes()),
        None => None,
    }
}

/// Whether a value passes that stands so to what the test's text reads as.
pub fn passes_by_order(test: &Test, order: Option<Ordering>) -> bool
    ensures passes { result ≡ passes_by_order order test.now }
{
    match test {
        Test::Equal(_) | Test::Approx(_) => order.is_some_and(|o| o.is_eq()),
        Test::AtLeast(_) => order.is_some_and(|o| o.is_ge()),
        Test::AtMost(_) => order.is_some_and(|o| o.is_le()),
        Test::Present => true,
        Test::Pieces(_) => false,
    }
}

/// Whether a number passes the test.
pub fn number_passes(test: &Test, given: i64) -> bool
    ensures passes { result ≡ order_passes (long_order given) test.now }
{
    passes_by_order(test, compare_number(given, number_of(test)))
}

/// Whether a version passes the test.
pub fn version_passes(test: &Test, given: &Version) -> bool
    ensures passes { result ≡ order_passes (version_order (parts given.now)) test.now }
{
    passes_by_order(test, compare_version(given, test))
}
