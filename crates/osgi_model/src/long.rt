//! Numbers of 64 bits, from their text.

ghost use Rattle.std.specs.Prelude.{◌≡◌};
ghost use Rattle.osgi_model.specs.computed.LongReader.{long_of, number_of};

use std::str;

fn number(text: &[u8]) -> Option<i64>
    ensures number { result ≡ number_of text.now }
{
    let Ok(digits) = str::from_utf8(text) else {
        return None;
    };
    digits.parse().ok()
}

/// The number of 64 bits that a text writes, with white space round it or not.
pub fn long(text: &[u8]) -> Option<i64>
    ensures number { result ≡ long_of text.now }
{
    number(text.trim_ascii())
}
