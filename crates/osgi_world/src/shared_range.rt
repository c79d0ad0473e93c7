//! Ranges of versions that their copies share, seen as those ranges.

ghost use Rattle.std.specs.Prelude.{◌≡◌, ◌↔◌, IfOk, IsTrue};
ghost use Rattle.osgi_version.specs.Ranges.{at_least_zero};
ghost use Rattle.osgi_version.specs.RangeValues.{is_within, range_parts, range_text};
ghost use Rattle.osgi_version.specs.VersionValues.{parts};

use osgi_base::{Copied, Shared, copy_option};
use osgi_version::{Version, VersionRange};
use std::alloc::{AllocError, Global};
use std::marker::Model;

/// A range of versions that never changes. Most requirements are of any version, so that range takes no memory, and copies share
/// any other. A contract sees the range and not where it stands.
#[derive(Drop)]
pub struct SharedRange {
    /// None for the range of all versions.
    given: Option<Shared<VersionRange>>,
}

impl Model for SharedRange {
    ghost use Rattle.osgi_version.specs.declared.range.VersionRange.{VersionRange};
    ghost use Rattle.osgi_world.specs.SharedRanges.{given_or_all};

    ghost Value = { VersionRange };

    ghost view = { λ r. given_or_all r.given };
}

impl SharedRange {
    /// The range of all versions: at least 0.0.0.
    pub fn at_least_zero() -> SharedRange
        ensures range { range_parts result ≡ at_least_zero }
    {
        SharedRange { given: None }
    }

    /// This range, shared.
    pub fn of(alloc: Global, range: VersionRange) -> Result<SharedRange, AllocError>
        ensures same { IfOk result (λ shared. shared ≡ range) }
    {
        if range.is_at_least_zero() {
            return Ok(SharedRange { given: None });
        }
        Ok(SharedRange {
            given: Some(Shared::new(alloc, range)?),
        })
    }

    /// Whether it is the range of all versions.
    pub fn is_at_least_zero(&self) -> bool
        ensures exactly { IsTrue result ↔ range_parts self.now ≡ at_least_zero }
    {
        match &self.given {
            Some(range) => range.get().is_at_least_zero(),
            None => true,
        }
    }

    /// Whether the version is within the range.
    pub fn contains(&self, version: &Version) -> bool
        ensures within { result ≡ is_within (range_parts self.now) (parts version.now) }
    {
        match &self.given {
            Some(range) => range.get().contains(version),
            None => true,
        }
    }

    /// The text of the range.
    pub fn print(&self, alloc: Global) -> Result<Vec<u8>, AllocError>
        ensures prints { IfOk result (λ t. t.items ≡ range_text (range_parts self.now)) }
    {
        match &self.given {
            Some(range) => range.get().print(alloc),
            None => VersionRange::at_least_zero().print(alloc),
        }
    }

    /// The same range, shared. It takes no memory; it fails where too many share it.
    pub fn copy(&self, alloc: Global) -> Result<SharedRange, AllocError>
        ensures same { IfOk result (λ copy. copy ≡ self.now) }
    {
        Ok(SharedRange {
            given: copy_option(&self.given, alloc)?,
        })
    }
}

impl Copied for SharedRange {
    fn copied(&self, alloc: Global) -> Result<SharedRange, AllocError> {
        self.copy(alloc)
    }
}
