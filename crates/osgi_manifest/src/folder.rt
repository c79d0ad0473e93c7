//! A bundle's folder, read by its manifest.

ghost use Rattle.std.specs.Prelude.{◌≡◌, IfOk, MatchResult, Ok, Err};
ghost use Rattle.osgi_base.specs.Verdict.{Gives};
ghost use Rattle.osgi_manifest.specs.Manifests.{IsManifestFault, IsMeaning, IsRevisionOf, Means, SaysManifest, manifest_faults};
ghost use Rattle.osgi_manifest.specs.computed.Readings.{AnswersOnly, IsStopAt, SaysText};
ghost use Rattle.osgi_manifest.specs.declared.meaning.Meaning.{Meaning};
ghost use Rattle.osgi_world.specs.declared.manifest_fault.ManifestFault.{ManifestFault};
ghost use Rattle.osgi_world.specs.declared.revision.Revision.{Revision};

use crate::files::manifest_file;
use crate::headers::header_fault;
use crate::meaning::Meaning;
use crate::said::Said;
use osgi_base::{Folder, Stop};
use osgi_header::{Header, unfold};
use osgi_world::{ManifestFault, ManifestKind, Revision};
use std::alloc::{AllocError, Global};

/// A fault of the manifest as a whole, or of one of its lines, which is no header.
fn stop(alloc: Global, kind: ManifestKind, at: u64) -> Stop<ManifestFault>
    ensures stop { IsStopAt kind at result }
{
    match header_fault(alloc, b"", kind, at) {
        Ok(fault) => Stop::Fault(fault),
        Err(_) => Stop::Memory,
    }
}

/// The revision that the headers mean and its script, or the first of their faults.
fn meant(alloc: Global, folder: &Folder, headers: &[Header]) -> Result<Meaning, Stop<ManifestFault>>
    ensures only { AnswersOnly folder.now
        (Gives (manifest_faults folder.now headers.now) (IsRevisionOf folder.now headers.now))
        result }
{
    let said = Said::read(alloc, folder, headers)?;
    let meaning = said.meaning(alloc, folder)?;
    Ok(meaning)
}

/// The revision that the manifest's text means and its script, or the text's fault.
fn meant_by(alloc: Global, folder: &Folder, manifest: &[u8]) -> Result<Meaning, Stop<ManifestFault>>
    ensures only { AnswersOnly folder.now (SaysText folder.now manifest.now) result }
{
    match unfold(alloc, manifest)? {
        Ok(headers) => meant(alloc, folder, headers.items()),
        Err(fault) => Err(stop(alloc, ManifestKind::Header, fault.at)),
    }
}

/// The revision that the folder means and its script, or the folder's fault.
fn read_folder(alloc: Global, folder: &Folder) -> Result<Meaning, Stop<ManifestFault>>
    ensures only { AnswersOnly folder.now (SaysManifest folder.now) result }
{
    match manifest_file(folder) {
        Some(file) => meant_by(alloc, folder, file.bytes.bytes()),
        None => Err(stop(alloc, ManifestKind::NoManifest, 0)),
    }
}

/// The revision that a bundle's folder means by its manifest, `META-INF/MANIFEST.MF`.
///
/// A folder that means none is at fault. Without a manifest the fault is `NoManifest`, with an empty header's name and at 0. A
/// line that is no header is the fault `Header`, with an empty name, at the byte of the manifest where the line begins. Otherwise
/// it is the first fault of the first faulty header, in the order in which the framework's rules list headers and faults; it
/// stands at the byte of the header's value where the first faulty clause begins, or at 0 where the header is missing or has no
/// clauses.
pub fn read(alloc: Global, folder: &Folder) -> Result<Result<Revision, ManifestFault>, AllocError>
    ensures reads { IfOk result (λ r.
        MatchResult r (Means folder.now) (IsManifestFault folder.now)) }
    ensures only { (revision : Revision)
        → Means folder.now revision
        → IfOk result (λ r. r ≡ Ok revision) }
    ensures fault { (fault : ManifestFault)
        → IsManifestFault folder.now fault
        → IfOk result (λ r. r ≡ Err fault) }
{
    match read_folder(alloc, folder) {
        Ok(meaning) => Ok(Ok(meaning.into_parts().0)),
        Err(Stop::Fault(fault)) => Ok(Err(fault)),
        Err(Stop::Memory) => Err(AllocError),
    }
}

/// The revision that a bundle's folder means, as `read` answers it, and the script of its activator; or the fault, as `read`
/// answers it. The activator's file is parsed once. A bundle without an activator, as a fragment, has a script without sections.
pub fn read_meaning(
    alloc: Global,
    folder: &Folder,
) -> Result<Result<Meaning, ManifestFault>, AllocError>
    ensures reads { IfOk result (λ r.
        MatchResult r (IsMeaning folder.now) (IsManifestFault folder.now)) }
    ensures only { (meaning : Meaning)
        → IsMeaning folder.now meaning
        → IfOk result (λ r. r ≡ Ok meaning) }
    ensures fault { (fault : ManifestFault)
        → IsManifestFault folder.now fault
        → IfOk result (λ r. r ≡ Err fault) }
{
    match read_folder(alloc, folder) {
        Ok(meaning) => Ok(Ok(meaning)),
        Err(Stop::Fault(fault)) => Ok(Err(fault)),
        Err(Stop::Memory) => Err(AllocError),
    }
}
