//! The digest of a text: a number that its bytes determine, and that mostly tells it from others.

ghost use Rattle.std.specs.Prelude.{◌≡◌};
ghost use Rattle.osgi_space_rows.specs.computed.Digests.{digest_of};

use osgi_base::Text;

/// The digest is multiplied by this before each byte is added. The number is odd, so no byte is lost by it.
const SPREAD: u64 = 1_099_511_628_211;

/// The digest of the bytes.
pub fn digest(text: &Text) -> u64
    ensures digest { result ≡ digest_of text.now }
{
    let bytes = text.bytes();
    let mut digest: u64 = 0;
    for byte in bytes {
        digest = digest.wrapping_mul(SPREAD).wrapping_add(*byte as u64);
    }
    digest
}
