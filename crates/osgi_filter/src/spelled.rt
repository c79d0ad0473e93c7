//! Versions as texts spell them, read without memory.

ghost use Rattle.std.specs.Prelude.{◌≡◌, ◌≤◌, ℕ};
ghost use Rattle.std.specs.List.{after_first, before_first};
ghost use Rattle.std.specs.Option.{option_map};
ghost use Rattle.osgi_version.specs.VersionReading.{parts_of};
ghost use Rattle.osgi_version.specs.VersionValues.{order, parts};
ghost use Rattle.osgi_version.specs.Versions.{Parts, NumbersFit};
ghost use Rattle.osgi_version.specs.declared.version.TheConstants.{MAX_NUMBER};
ghost use Rattle.osgi_filter.specs.computed.Spelled.{CutsInto, IsPart, is_dot, spelled};

use memchr::memchr;
use osgi_version::Version;
use std::cmp::Ordering;
use std::str;

/// A version whose qualifier stands in the text that spells it.
#[derive(Clone, Copy)]
pub struct SpelledVersion<'a> {
    major: u32,
    minor: u32,
    micro: u32,
    qualifier: &'a [u8],
}

/// The number that the digits write; 0 where there are none.
fn number(digits: &[u8]) -> u32
    ensures number { (n : ℕ) → IsPart digits.now n → n ≤ MAX_NUMBER → result ≡ n }
{
    let Ok(digits) = str::from_utf8(digits) else {
        return 0;
    };
    digits.parse().unwrap_or(0)
}

/// What stands before the first dot, and what follows it: all and nothing where there is none.
fn cut(bytes: &[u8]) -> (&[u8], &[u8])
    ensures front { result.0.now ≡ before_first is_dot bytes.now }
    ensures back { result.1.now ≡ after_first is_dot bytes.now }
{
    match memchr(b'.', bytes) {
        Some(at) => (bytes.split_at(at).0, bytes.split_at(at + 1).1),
        None => (bytes, &[]),
    }
}

/// The parts between the dots of a text that reads as a version and has no white space round it.
fn cut_parts(text: &[u8]) -> SpelledVersion
    ensures parts { (v : Parts) → CutsInto text.now v → NumbersFit v → spelled result ≡ v }
{
    let (major, behind_major) = cut(text);
    let (minor, behind_minor) = cut(behind_major);
    let (micro, qualifier) = cut(behind_minor);
    SpelledVersion {
        major: number(major),
        minor: number(minor),
        micro: number(micro),
        qualifier,
    }
}

/// The version that the text reads as. Any version can be compared with the text just where it reads as one.
pub fn read_version(text: &[u8]) -> Option<SpelledVersion>
    ensures version { option_map spelled result ≡ parts_of text.now }
{
    Version::numbered(0, 0, 0).compare_text(text)?;
    Some(cut_parts(text.trim_ascii()))
}

impl SpelledVersion<'_> {
    /// How a version stands to this one.
    pub fn order_of(&self, given: &Version) -> Ordering
        ensures order { result ≡ order (parts given.now) (spelled self.now) }
    {
        let by_micro = given.micro.cmp(&self.micro);
        let by_qualifier = given.qualifier.bytes().cmp(self.qualifier);
        let by_minor = given.minor.cmp(&self.minor);
        let rest = by_minor.then(by_micro.then(by_qualifier));
        given.major.cmp(&self.major).then(rest)
    }
}
