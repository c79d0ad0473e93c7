//! What Bundle-SymbolicName says.

ghost use Rattle.std.specs.Prelude.{codes};
ghost use Rattle.osgi_world.specs.declared.manifest_fault.ManifestKind.TheVariants as fault;
ghost use Rattle.osgi_package.specs.Only.{IsOnly};
ghost use Rattle.osgi_clause.specs.Faults.{name_faults};
ghost use Rattle.osgi_manifest.specs.computed.Answers.{AnswersHeader, IsStep};
ghost use Rattle.osgi_clause.specs.Lone.{IsLone, SaysNaming};
ghost use Rattle.osgi_manifest.specs.computed.Lone.{IsNamedAs, name_conditions};

use crate::headers::{header_fault, made_of, read_header};
use osgi_base::Stop;
use osgi_clause::{Naming, named};
use osgi_header::Header;
use osgi_world::{ManifestFault, ManifestKind};
use std::alloc::Global;

fn name_header(alloc: Global, headers: &[Header]) -> Result<Option<Naming>, Stop<ManifestFault>>
    ensures answer { AnswersHeader name_faults fault.BadName (IsLone SaysNaming) headers.now
        (codes "Bundle-SymbolicName") result }
{
    let read = read_header(alloc, b"Bundle-SymbolicName", headers)?;
    let made = named(alloc, read.clauses.items())?;
    made_of(
        alloc,
        b"Bundle-SymbolicName",
        ManifestKind::BadName,
        read.fault,
        made,
    )
}

/// What Bundle-SymbolicName says, or its fault.
pub fn bundle_naming(alloc: Global, headers: &[Header]) -> Result<Naming, Stop<ManifestFault>>
    ensures step { IsStep (name_conditions headers.now) (IsOnly (IsNamedAs headers.now)) result }
{
    match name_header(alloc, headers)? {
        Some(naming) => Ok(naming),
        None => Err(Stop::Fault(header_fault(
            alloc,
            b"Bundle-SymbolicName",
            ManifestKind::NoName,
            0,
        )?)),
    }
}
