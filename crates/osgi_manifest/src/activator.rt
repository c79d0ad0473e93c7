//! The activator of a bundle and its script, and its native code, of which there may be none.

ghost use Rattle.std.specs.Prelude.{◌≡◌, IfOk, ◌==◌};
ghost use Rattle.std.specs.Option.{option_copied};
ghost use Rattle.osgi_manifest.specs.Manifests as spec;
ghost use Rattle.osgi_manifest.specs.computed.Answers.{IsStep};
ghost use Rattle.osgi_manifest.specs.computed.Steps.{Anything, IsActivator, IsClassScript, activator_conditions, native_conditions};

use crate::files::file_at;
use crate::headers::{header_fault, header_value};
use crate::host::has_host;
use osgi_base::{Folder, List, Stop, Text};
use osgi_header::Header;
use osgi_script::{Script, parse};
use osgi_world::{ManifestFault, ManifestKind};
use std::alloc::{AllocError, Global};

/// The path of the file of a class.
fn class_file(alloc: Global, class: &[u8]) -> Result<Vec<u8>, AllocError>
    ensures path { IfOk result (λ path. path.items ≡ spec.class_file class.now) }
{
    let mut path = Vec::new(alloc);
    for b in class {
        path.push(if *b == b'.' { b'/' } else { *b })?;
    }
    path.extend_from_slice(b".osc")?;
    Ok(path)
}

/// The class that is the activator; a fragment has none.
fn activator(headers: &[Header]) -> Option<&Text>
    ensures class { option_copied result ≡ spec.activator headers.now }
{
    if has_host(headers) {
        return None;
    }
    header_value(b"Bundle-Activator", headers)
}

/// The script that the file of a class is, or the fault of a class whose file is missing or no script.
fn class_script(
    alloc: Global,
    folder: &Folder,
    class: &[u8],
) -> Result<Result<Script, ManifestKind>, AllocError>
    ensures script { IfOk result (IsClassScript folder.now class.now) }
{
    let path = class_file(alloc, class)?;
    let Some(file) = file_at(path.as_slice(), folder) else {
        return Ok(Err(ManifestKind::NoScript));
    };
    match parse(alloc, file.bytes.bytes())? {
        Ok(script) => Ok(Ok(script)),
        Err(_) => Ok(Err(ManifestKind::BadScript)),
    }
}

/// The class that is the activator, and its script, which has no sections where there is no such class; or the fault of the
/// activator's header.
pub fn bundle_activator(
    alloc: Global,
    folder: &Folder,
    headers: &[Header],
) -> Result<(Option<Text>, Script), Stop<ManifestFault>>
    ensures step { IsStep (activator_conditions folder.now headers.now)
        (IsActivator folder.now headers.now) result }
{
    let Some(class) = activator(headers) else {
        let sections = List::new(alloc)?;
        return Ok((None, Script { sections }));
    };
    match class_script(alloc, folder, class.bytes())? {
        Ok(script) => Ok((Some(class.copy(alloc)?), script)),
        Err(kind) => Err(Stop::Fault(header_fault(alloc, b"Bundle-Activator", kind, 0)?)),
    }
}

/// The fault of a bundle that has native code.
pub fn native_code(alloc: Global, headers: &[Header]) -> Result<(), Stop<ManifestFault>>
    ensures step { IsStep (native_conditions headers.now) Anything result }
{
    match header_value(b"Bundle-NativeCode", headers) {
        None => Ok(()),
        Some(_) => Err(Stop::Fault(header_fault(
            alloc,
            b"Bundle-NativeCode",
            ManifestKind::NativeCode,
            0,
        )?)),
    }
}
