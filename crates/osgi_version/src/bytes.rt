//! The classes of bytes that versions and ranges are written with.

ghost use Rattle.std.specs.Prelude.{◌≡◌};
ghost use Rattle.osgi_version.specs.computed.Classes.{class_of};

/// What a byte may be in a version or a range.
#[derive(Clone, Copy)]
pub enum Class {
    Digit,
    /// A letter, `_` or `-`.
    Letter,
    Dot,
    /// White space.
    Blank,
    Comma,
    /// `[` or `(`.
    Open,
    /// `]` or `)`.
    Close,
    Other,
}

#[tactic(auto, unfolding(crate::specs::computed::Classes::class_of))]
#[inline(always)]
pub fn class_of(b: u8) -> Class
    ensures class { result ≡ class_of b }
{
    match b {
        b'0'..=b'9' => Class::Digit,
        b'a'..=b'z' | b'A'..=b'Z' | b'_' | b'-' => Class::Letter,
        b'.' => Class::Dot,
        b'\t' | b'\n' | 12 | b'\r' | b' ' => Class::Blank,
        b',' => Class::Comma,
        b'[' | b'(' => Class::Open,
        b']' | b')' => Class::Close,
        _ => Class::Other,
    }
}
