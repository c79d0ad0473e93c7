//! The words that are ids of services and of bundles.

ghost use Rattle.std.specs.Prelude.{◌≡◌, IfSome, Some};
ghost use Rattle.std.specs.List.{list_all};
ghost use Rattle.osgi_model.specs.computed.LongReader.{is_decimal, is_numeral};
ghost use Rattle.osgi_base.specs.declared.ids.BundleId.{BundleId};
ghost use Rattle.osgi_base.specs.declared.ids.ServiceId.{ServiceId};
ghost use Rattle.osgi_syntax.specs.WordReader.{bundle_by, bundle_id_of, service_id_of};
ghost use Rattle.osgi_syntax.specs.Words.{IsBundleId, IsId};

use osgi_base::{BundleId, ServiceId};
use std::str;

/// The most digits of an id.
const MAX_ID_LEN: usize = 10;

fn has_digits(word: &[u8]) -> bool
    ensures all { result ≡ list_all is_decimal word.now }
{
    word.iter().all(|b| b.is_ascii_digit())
}

/// Whether a text is one decimal digit or more.
fn is_numeral(word: &[u8]) -> bool
    ensures numeral { result ≡ is_numeral word.now }
{
    !word.is_empty() && has_digits(word)
}

/// A word as the id of a bundle: one to ten decimal digits of a number below 2^32. None where it is none.
pub fn bundle_id(word: &[u8]) -> Option<BundleId>
    ensures id { result ≡ bundle_id_of word.now }
    ensures reads { IfSome result (IsBundleId word.now) }
    ensures only { (bundle : BundleId) → IsBundleId word.now bundle → result ≡ Some bundle }
{
    bundle_by(service_id(word))
}

/// The bundle with this number, where there is a number and it is below 2^32.
fn bundle_by(number: Option<ServiceId>) -> Option<BundleId>
    ensures bundle { result ≡ bundle_by number }
{
    let ServiceId(number) = number?;
    if number > u64::from(u32::MAX) {
        None
    } else {
        Some(BundleId(number as u32))
    }
}

/// A word as the id of a service: one to ten decimal digits. None where it is none.
pub fn id(word: &[u8]) -> Option<ServiceId>
    ensures id { result ≡ service_id_of word.now }
    ensures reads { IfSome result (IsId word.now) }
    ensures only { (service : ServiceId) → IsId word.now service → result ≡ Some service }
{
    service_id(word)
}

fn service_id(word: &[u8]) -> Option<ServiceId>
    ensures id { result ≡ service_id_of word.now }
{
    if word.len() > MAX_ID_LEN || !is_numeral(word) {
        return None;
    }
    let Ok(digits) = str::from_utf8(word) else {
        return None;
    };
    digits.parse().ok().map(ServiceId)
}
