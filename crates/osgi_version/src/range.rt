//! Ranges of versions.

ghost use Rattle.std.specs.Prelude.{◌≡◌, ◌≤◌, ◌↔◌, ℕ, List, length, true, Some, IfOk, IsTrue, MatchResult, IsOkAnd};
ghost use Rattle.osgi_version.specs.Faults.{IsFault};
ghost use Rattle.osgi_version.specs.computed.RangeMachine.{step_range, is_fine_range, may_end_range, held_range};
ghost use Rattle.osgi_version.specs.RangeValues.{range_parts, range_text, is_within, is_above, is_below_high};
ghost use Rattle.osgi_version.specs.Ranges.{RangeParts, ReadsRange, IsSpelledRange, IsReadableRange, at_least_zero};
ghost use Rattle.osgi_version.specs.computed.Run.{run, advance};
ghost use Rattle.osgi_version.specs.Versions.{ReadsVersion, IsReadableVersion};
ghost use Rattle.osgi_version.specs.VersionValues.{parts};
ghost use Rattle.osgi_version.specs.declared.range_state.RangeState.TheVariants.{Before};

use crate::bounds::cut;
use crate::examine::examine;
use crate::fault::VersionFault;
use crate::range_state::RangeState;
use crate::version::Version;
use osgi_base::{Copied, copy_option};
use std::alloc::{AllocError, Global};
use std::cmp::Ordering;

/// A range of versions. Without `high` it has no upper bound. A range may be empty.
#[derive(Drop, PartialEq, Eq)]
pub struct VersionRange {
    pub low: Version,
    pub low_in: bool,
    pub high: Option<Version>,
    pub high_in: bool,
}

impl VersionRange {
    /// The range that the bytes read as, or why they are none.
    pub fn parse(
        alloc: Global,
        bytes: &[u8],
    ) -> Result<Result<VersionRange, VersionFault>, AllocError>
        ensures reads { IfOk result (λ r. MatchResult r (λ r. ReadsRange bytes.now (range_parts r)) (IsFault IsSpelledRange IsReadableRange bytes.now)) }
        ensures only { (range : RangeParts) → ReadsRange bytes.now range → IfOk result (λ r. IsOkAnd r (λ w. range_parts w ≡ range)) }
    {
        match examine::<RangeState>(bytes) {
            Ok(state) => {
                let range = built(alloc, bytes, state)?;
                Ok(Ok(range))
            }
            Err(fault) => Ok(Err(fault)),
        }
    }

    /// The range of all versions: at least 0.0.0.
    pub fn at_least_zero() -> VersionRange
        ensures range { range_parts result ≡ at_least_zero }
    {
        VersionRange {
            low: Version::numbered(0, 0, 0),
            low_in: true,
            high: None,
            high_in: false,
        }
    }

    /// Whether it is the range that a plain 0.0.0 or nothing at all stands for.
    pub fn is_at_least_zero(&self) -> bool
        ensures exactly { IsTrue result ↔ range_parts self.now ≡ at_least_zero }
    {
        self.high.is_none() && self.low_in && !self.high_in && self.low.is_zero()
    }

    /// The brackets with the two versions and a comma between, or the plain version.
    pub fn print(&self, alloc: Global) -> Result<Vec<u8>, AllocError>
        ensures prints { IfOk result (λ t. t.items ≡ range_text (range_parts self.now)) }
        ensures reads_back { (bytes : List ℕ) → ReadsRange bytes (range_parts self.now) → IfOk result (λ t. ReadsRange t.items (range_parts self.now)) }
    {
        let out = self.text(alloc)?;
        Ok(out)
    }

    fn text(&self, alloc: Global) -> Result<Vec<u8>, AllocError>
        ensures text { IfOk result (λ t. t.items ≡ range_text (range_parts self.now)) }
    {
        let Some(high) = &self.high else {
            return self.low.print(alloc);
        };
        let mut out = Vec::new(alloc);
        out.push(if self.low_in { b'[' } else { b'(' })?;
        out.extend_from_slice(&self.low.print(alloc)?)?;
        out.push(b',')?;
        out.extend_from_slice(&high.print(alloc)?)?;
        out.push(if self.high_in { b']' } else { b')' })?;
        Ok(out)
    }

    /// Whether the version is within the range.
    pub fn contains(&self, version: &Version) -> bool
        ensures within { result ≡ is_within (range_parts self.now) (parts version.now) }
    {
        is_above(self.low_in, version.cmp(&self.low)) && self.is_below_high(version)
    }

    fn is_below_high(&self, version: &Version) -> bool
        ensures below { result ≡ is_below_high (range_parts self.now).high self.now.high_in (parts version.now) }
    {
        match &self.high {
            None => true,
            Some(high) => is_above(self.high_in, high.cmp(version)),
        }
    }

    pub fn copy(&self, alloc: Global) -> Result<VersionRange, AllocError>
        ensures same { IfOk result (λ copy. copy ≡ self.now) }
    {
        Ok(VersionRange {
            low: self.low.copy(alloc)?,
            low_in: self.low_in,
            high: copy_option(&self.high, alloc)?,
            high_in: self.high_in,
        })
    }
}

impl Copied for VersionRange {
    fn copied(&self, alloc: Global) -> Result<VersionRange, AllocError> {
        self.copy(alloc)
    }
}

/// Whether an order against a bound is above it, or at it where it is let in.
fn is_above(bound_in: bool, order: Ordering) -> bool
    ensures above { result ≡ is_above bound_in order }
{
    match order {
        Ordering::Less => false,
        Ordering::Equal => bound_in,
        Ordering::Greater => true,
    }
}

/// The range of a text that its machine read to the end.
fn built(alloc: Global, bytes: &[u8], state: RangeState) -> Result<VersionRange, AllocError>
    requires held { held_range state ≤ length bytes.now }
    requires runs { run (advance is_fine_range step_range true) (Before 0) bytes.now ≡ Some state }
    requires end { may_end_range state ≡ true }
    ensures reads { IfOk result (λ r. ReadsRange bytes.now (range_parts r)) }
{
    match cut(bytes, state) {
        Some(bounds) => Ok(VersionRange {
            low: known(alloc, bounds.low)?,
            low_in: bounds.low_in,
            high: Some(known(alloc, bounds.high)?),
            high_in: bounds.high_in,
        }),
        None => Ok(VersionRange {
            low: known(alloc, bytes)?,
            low_in: true,
            high: None,
            high_in: false,
        }),
    }
}

/// The version of a text that reads as one.
fn known(alloc: Global, bytes: &[u8]) -> Result<Version, AllocError>
    requires readable { IsReadableVersion bytes.now }
    ensures reads { IfOk result (λ v. ReadsVersion bytes.now (parts v)) }
{
    match Version::parse(alloc, bytes)? {
        Ok(version) => Ok(version),
        Err(_) => unreachable!(),
    }
}
