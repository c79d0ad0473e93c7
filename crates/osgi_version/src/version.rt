//! Versions: three numbers and a qualifier.

ghost use Rattle.std.specs.Prelude.{◌≤◌};
ghost use Rattle.osgi_version.specs.declared.version.TheConstants.{MAX_NUMBER};

use crate::fault::VersionFault;
use crate::printing::printed;
use crate::qualifier::Qualifier;
use crate::read::{Found, read};
use osgi_base::Copied;
use std::alloc::{AllocError, Global};
use std::cmp::Ordering;

/// The greatest number of a version.
pub const MAX_NUMBER: u32 = 2_147_483_647;

/// A version. Versions are ordered by their numbers, then by the qualifiers' bytes.
#[derive(Drop)]
pub struct Version {
    pub major: u32,
    pub minor: u32,
    pub micro: u32,
    pub qualifier: Qualifier,
    pub ghost in_range: { (major ≤ MAX_NUMBER) × (minor ≤ MAX_NUMBER) × (micro ≤ MAX_NUMBER) },
}

impl Version {
    ghost use Rattle.std.specs.Prelude.{◌≡◌, ◌↔◌, IfOk, IsNone, IsTrue, IsOkAnd, MatchResult, Some};
    ghost use Rattle.osgi_version.specs.Faults.{IsFault};
    ghost use Rattle.osgi_version.specs.computed.FoundParts.{found_parts};
    ghost use Rattle.osgi_version.specs.VersionValues.{order, parts, parts_text};
    ghost use Rattle.osgi_version.specs.Versions.{Parts, ReadsVersion, IsReadableVersion, IsSpelledVersion, numbered};

    /// The version of these numbers, with the empty qualifier.
    pub fn numbered(major: u32, minor: u32, micro: u32) -> Version
        requires fit { (major ≤ MAX_NUMBER) × (minor ≤ MAX_NUMBER) × (micro ≤ MAX_NUMBER) }
        ensures parts { parts result ≡ numbered major minor micro }
    {
        Version {
            major,
            minor,
            micro,
            qualifier: Qualifier::empty(),
        }
    }

    /// The version that the bytes read as, or why they are none.
    pub fn parse(alloc: Global, bytes: &[u8]) -> Result<Result<Version, VersionFault>, AllocError>
        ensures reads { IfOk result (λ r. MatchResult r (λ v. ReadsVersion bytes.now (parts v)) (IsFault IsSpelledVersion IsReadableVersion bytes.now)) }
        ensures only { (v : Parts) → ReadsVersion bytes.now v → IfOk result (λ r. IsOkAnd r (λ w. parts w ≡ v)) }
    {
        match read(bytes) {
            Ok(found) => Ok(Ok(Version {
                major: found.major,
                minor: found.minor,
                micro: found.micro,
                qualifier: Qualifier::of(alloc, found.qualifier)?,
            })),
            Err(fault) => Ok(Err(fault)),
        }
    }

    /// Three numbers, and the qualifier unless it is empty, with dots between. It reads as this version again.
    pub fn print(&self, alloc: Global) -> Result<Vec<u8>, AllocError>
        ensures prints { IfOk result (λ t. t.items ≡ parts_text (parts self.now)) }
        ensures reads_back { IfOk result (λ t. ReadsVersion t.items (parts self.now)) }
    {
        let qualifier = self.qualifier.bytes();
        let out = printed(alloc, self.major, self.minor, self.micro, qualifier)?;
        Ok(out)
    }

    /// The order against the version that the bytes read as; nothing where they are no version.
    pub fn compare_text(&self, bytes: &[u8]) -> Option<Ordering>
        ensures order { (v : Parts) → ReadsVersion bytes.now v → result ≡ Some (order (parts self.now) v) }
        ensures no_version { IsNone result ↔ ¬ IsReadableVersion bytes.now }
    {
        match read(bytes) {
            Ok(found) => Some(self.order(&found)),
            Err(_) => None,
        }
    }

    /// What it says, as if it stood in a text.
    pub(crate) fn found(&self) -> Found<'_>
        ensures parts { found_parts result ≡ parts self.now }
    {
        Found {
            major: self.major,
            minor: self.minor,
            micro: self.micro,
            qualifier: self.qualifier.bytes(),
        }
    }

    /// Whether it is 0.0.0 with the empty qualifier.
    pub(crate) fn is_zero(&self) -> bool
        ensures zero { IsTrue result ↔ parts self.now ≡ numbered 0 0 0 }
    {
        self.major == 0 && self.minor == 0 && self.micro == 0 && self.qualifier.bytes().is_empty()
    }

    pub(crate) fn order(&self, other: &Found) -> Ordering
        ensures order { result ≡ order (parts self.now) (found_parts other.now) }
    {
        let by_micro = self.micro.cmp(&other.micro);
        let by_qualifier = self.qualifier.bytes().cmp(other.qualifier);
        let rest = self
            .minor
            .cmp(&other.minor)
            .then(by_micro.then(by_qualifier));
        self.major.cmp(&other.major).then(rest)
    }

    pub fn copy(&self, alloc: Global) -> Result<Version, AllocError>
        ensures same { IfOk result (λ copy. copy ≡ self.now) }
    {
        Ok(Version {
            major: self.major,
            minor: self.minor,
            micro: self.micro,
            qualifier: self.qualifier.copy(alloc)?,
        })
    }
}

impl Copied for Version {
    fn copied(&self, alloc: Global) -> Result<Version, AllocError> {
        self.copy(alloc)
    }
}
