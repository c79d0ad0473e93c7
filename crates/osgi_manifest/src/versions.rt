//! The version of a manifest, and the version of its bundle.

ghost use Rattle.std.specs.Prelude.{◌≡◌, ◌≢◌, codes, MatchBool, Some};
ghost use Rattle.osgi_manifest.specs.Manifests as spec;
ghost use Rattle.osgi_manifest.specs.Values as values;
ghost use Rattle.osgi_manifest.specs.computed.Answers.{IsStep};
ghost use Rattle.osgi_manifest.specs.computed.Steps.{Anything, IsVersion, manifest_version_conditions, version_conditions};

use crate::headers::{header_fault, header_value};
use osgi_base::Stop;
use osgi_header::Header;
use osgi_version::Version;
use osgi_world::{ManifestFault, ManifestKind};
use std::alloc::Global;

fn is_two(headers: &[Header]) -> bool
    ensures two { MatchBool result
        (values.header_value (codes "Bundle-ManifestVersion") headers.now ≡ Some (codes "2"))
        (values.header_value (codes "Bundle-ManifestVersion") headers.now ≢ Some (codes "2")) }
{
    match header_value(b"Bundle-ManifestVersion", headers) {
        Some(version) => version.bytes() == b"2".as_slice(),
        None => false,
    }
}

/// The fault of a manifest whose version is not 2.
pub fn manifest_version(alloc: Global, headers: &[Header]) -> Result<(), Stop<ManifestFault>>
    ensures step { IsStep (manifest_version_conditions headers.now) Anything result }
{
    if is_two(headers) {
        return Ok(());
    }
    Err(Stop::Fault(header_fault(
        alloc,
        b"Bundle-ManifestVersion",
        ManifestKind::ManifestVersion,
        0,
    )?))
}

/// The text of the bundle's version, which is empty without the header.
fn version_text(headers: &[Header]) -> &[u8]
    ensures text { result.now ≡ spec.own_version headers.now }
{
    match header_value(b"Bundle-Version", headers) {
        Some(text) => text.bytes(),
        None => b"",
    }
}

/// The bundle's version, or the fault of its header.
pub fn bundle_version(alloc: Global, headers: &[Header]) -> Result<Version, Stop<ManifestFault>>
    ensures step { IsStep (version_conditions headers.now) (IsVersion headers.now) result }
{
    match Version::parse(alloc, version_text(headers))? {
        Ok(version) => Ok(version),
        Err(_) => Err(Stop::Fault(header_fault(
            alloc,
            b"Bundle-Version",
            ManifestKind::BadVersion,
            0,
        )?)),
    }
}
