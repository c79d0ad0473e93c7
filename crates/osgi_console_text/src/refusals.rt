//! The lines of refusals.

ghost use Rattle.std.specs.Prelude.{◌≡◌, ◌++◌, OnOk};
ghost use Rattle.osgi_session.specs.RefusalTexts.{details, fault_text, header_text, manifest_kind_name, refusal_text, spaced, tag_text, unmet_text};
ghost use Rattle.osgi_session.specs.Rendering.{line_at};

use crate::writing::{add_indent, add_spaced, add_spaced_number};
use osgi_base::Tag;
use osgi_ops::{Refusal, Unmet};
use osgi_world::{ManifestFault, ManifestKind};
use std::alloc::AllocError;

/// The name of what is wrong with a manifest.
fn kind_name(kind: ManifestKind) -> &'static str
    ensures name { result.now ≡ manifest_kind_name kind }
{
    match kind {
        ManifestKind::NoManifest => "NoManifest",
        ManifestKind::Header => "Header",
        ManifestKind::ManifestVersion => "ManifestVersion",
        ManifestKind::NoName => "NoName",
        ManifestKind::BadName => "BadName",
        ManifestKind::BadVersion => "BadVersion",
        ManifestKind::BadClause => "BadClause",
        ManifestKind::BadRange => "BadRange",
        ManifestKind::Extension => "Extension",
        ManifestKind::DoubleType => "DoubleType",
        ManifestKind::BadValue => "BadValue",
        ManifestKind::DuplicateImport => "DuplicateImport",
        ManifestKind::JavaExport => "JavaExport",
        ManifestKind::ImplicitAttribute => "ImplicitAttribute",
        ManifestKind::BadFilter => "BadFilter",
        ManifestKind::ReservedNamespace => "ReservedNamespace",
        ManifestKind::NoScript => "NoScript",
        ManifestKind::BadScript => "BadScript",
        ManifestKind::NativeCode => "NativeCode",
    }
}

/// Adds the name of the header at fault after a space, or `-` where no one header is.
fn add_header(out: &mut Vec<u8>, header: &[u8]) -> Result<(), AllocError>
    ensures added { OnOk result (out.new.items ≡ out.old.items ++ spaced (header_text header.now)) }
{
    match header {
        [] => add_spaced(out, b"-"),
        _ => add_spaced(out, header),
    }
}

/// Adds the header, what is wrong with it, and the place.
fn add_fault(out: &mut Vec<u8>, fault: &ManifestFault) -> Result<(), AllocError>
    ensures added { OnOk result (out.new.items ≡ out.old.items ++ fault_text fault.now) }
{
    add_header(out, fault.header.bytes())?;
    add_spaced(out, kind_name(fault.kind).as_bytes())?;
    add_spaced_number(out, fault.at)
}

/// Adds the caller and the line of a call.
fn add_tag(out: &mut Vec<u8>, by: Tag) -> Result<(), AllocError>
    ensures added { OnOk result (out.new.items ≡ out.old.items ++ tag_text by) }
{
    add_spaced_number(out, u64::from(by.caller))?;
    add_spaced_number(out, u64::from(by.command))
}

/// Adds which requirement has no candidate.
fn add_no_candidate(out: &mut Vec<u8>, namespace: &[u8], name: &[u8]) -> Result<(), AllocError>
    ensures added { OnOk result
        (out.new.items ≡ out.old.items ++ unmet_text (Unmet.NoCandidate namespace.now name.now)) }
{
    add_spaced(out, b"NoCandidate")?;
    add_spaced(out, namespace)?;
    add_spaced(out, name)
}

/// Adds why a bundle cannot be resolved.
fn add_unmet(out: &mut Vec<u8>, cause: &Unmet) -> Result<(), AllocError>
    ensures added { OnOk result (out.new.items ≡ out.old.items ++ unmet_text cause.now) }
{
    match cause {
        Unmet::NoCandidate { namespace, name } => {
            add_no_candidate(out, namespace.bytes(), name.bytes())
        }
        Unmet::Clash => add_spaced(out, b"Clash"),
    }
}

/// Adds what a refusal says besides its number and name.
fn add_details(out: &mut Vec<u8>, refusal: &Refusal) -> Result<(), AllocError>
    ensures added { OnOk result (out.new.items ≡ out.old.items ++ details refusal.now) }
{
    match refusal {
        Refusal::StateChange { by } | Refusal::Refreshing { by } => add_tag(out, *by),
        Refusal::ManifestError { fault } => add_fault(out, fault),
        Refusal::DuplicateBundle { bundle } => add_spaced_number(out, u64::from(bundle.0)),
        Refusal::Unresolvable { cause } => add_unmet(out, cause),
        Refusal::BudgetSpent { visited } => add_spaced_number(out, *visited),
        Refusal::NotOwner { owner } => add_spaced_number(out, u64::from(owner.0)),
        Refusal::TooMany { kind } => add_spaced(out, kind.name().as_bytes()),
        _ => Ok(()),
    }
}

/// Adds the line of a refusal.
pub fn add_refusal(out: &mut Vec<u8>, depth: usize, refusal: &Refusal) -> Result<(), AllocError>
    ensures added { OnOk result
        (out.new.items ≡ out.old.items ++ line_at depth (refusal_text refusal.now)) }
{
    add_indent(out, depth)?;
    out.extend_from_slice(b"refused")?;
    add_spaced_number(out, u64::from(refusal.number()))?;
    add_spaced(out, refusal.name().as_bytes())?;
    add_details(out, refusal)?;
    out.push(b'\n')?;
    Ok(())
}
