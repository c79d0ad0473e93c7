//! What Fragment-Host says.

ghost use Rattle.std.specs.Prelude.{◌≡◌, codes, Ok, Err, is_some};
ghost use Rattle.osgi_world.specs.declared.manifest_fault.ManifestKind.TheVariants as fault;
ghost use Rattle.osgi_manifest.specs.Manifests as spec;
ghost use Rattle.osgi_clause.specs.Faults.{host_faults};
ghost use Rattle.osgi_manifest.specs.computed.Answers.{AnswersHeader, IsStep};
ghost use Rattle.osgi_manifest.specs.computed.Lone.{IsHostIn, host_conditions};
ghost use Rattle.osgi_clause.specs.Lone.{IsLone, SaysHost};

use crate::headers::{header_fault, header_value, made_of, read_header};
use osgi_base::Stop;
use osgi_clause::hosted;
use osgi_header::Header;
use osgi_world::{ManifestFault, ManifestKind, Requirement};
use std::alloc::Global;

fn host_header(
    alloc: Global,
    headers: &[Header],
) -> Result<Option<Requirement>, Stop<ManifestFault>>
    ensures answer { AnswersHeader host_faults fault.BadClause (IsLone SaysHost) headers.now
        (codes "Fragment-Host") result }
{
    let read = read_header(alloc, b"Fragment-Host", headers)?;
    let made = hosted(alloc, read.clauses.items())?;
    made_of(
        alloc,
        b"Fragment-Host",
        ManifestKind::BadClause,
        read.fault,
        made,
    )
}

/// Whether the manifest is that of a fragment.
pub fn has_host(headers: &[Header]) -> bool
    ensures host { result ≡ spec.has_host headers.now }
{
    header_value(b"Fragment-Host", headers).is_some()
}

/// The host that the manifest names, if it names one, or the fault of its header.
pub fn bundle_host(
    alloc: Global,
    headers: &[Header],
) -> Result<Option<Requirement>, Stop<ManifestFault>>
    ensures step { IsStep (host_conditions headers.now) (IsHostIn headers.now) result }
{
    match host_header(alloc, headers)? {
        Some(host) => Ok(Some(host)),
        None if has_host(headers) => Err(Stop::Fault(header_fault(
            alloc,
            b"Fragment-Host",
            ManifestKind::BadClause,
            0,
        )?)),
        None => Ok(None),
    }
}
