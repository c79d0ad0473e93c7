//! Ranges of versions, read from the texts of clauses.

ghost use Rattle.std.specs.Prelude.{IfOk};
ghost use Rattle.osgi_clause.specs.computed.Templates.{IsAnyRange};

use osgi_package::range;
use osgi_version::VersionRange;
use std::alloc::{AllocError, Global};

/// The range of all versions, which the empty text reads as.
pub fn any_range(alloc: Global) -> Result<VersionRange, AllocError>
    ensures any { IfOk result IsAnyRange }
{
    match range(alloc, b"")? {
        Some(any) => Ok(any),
        None => Ok(VersionRange::at_least_zero()),
    }
}

/// The range of all versions, twice: as one call, so that its caller has one exit.
pub fn any_ranges(alloc: Global) -> Result<(VersionRange, VersionRange), AllocError>
    ensures first { IfOk result (λ ranges. IsAnyRange ranges.0) }
    ensures second { IfOk result (λ ranges. IsAnyRange ranges.1) }
{
    let first = any_range(alloc)?;
    Ok((first, any_range(alloc)?))
}
