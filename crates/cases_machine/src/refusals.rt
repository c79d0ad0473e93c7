//! Refusals by their names, and how they are shown.

use crate::names::many_named;
use cases_operations::add_shown;
use cases_text::{put, put_shown, text_of};
use osgi_base::{BundleId, Tag, Text};
use osgi_ops::{Entry, Many, Op, Refusal, Reply, Unmet};
use osgi_world::{ManifestFault, ManifestKind};
use std::alloc::{AllocError, Global};

/// The refusals that rows name.
#[derive(Clone, Copy)]
enum Named {
    NoSuchBundle,
    InvalidOperation,
    StateChange,
    Refreshing,
    ReadError,
    NoFolder,
    /// A manifest's header is at fault.
    ManifestError,
    /// A folder has no manifest.
    NoManifest,
    DuplicateBundle,
    /// A requirement has no candidate.
    Unresolvable,
    /// No choice of candidates is consistent.
    Clash,
    BudgetSpent,
    ActivatorError,
    StartTransient,
    NoSuchService,
    BadProperties,
    NotOwner,
    TooDeep,
    TooMany(Many),
    HistoryFull,
    HandingsSpent,
}

/// The refusals by their names, but for those of what there is too many of.
const NAMED: [(&str, Named); 20] = [
    ("NoSuchBundle", Named::NoSuchBundle),
    ("InvalidOperation", Named::InvalidOperation),
    ("StateChange", Named::StateChange),
    ("Refreshing", Named::Refreshing),
    ("ReadError", Named::ReadError),
    ("NoFolder", Named::NoFolder),
    ("ManifestError", Named::ManifestError),
    ("NoManifest", Named::NoManifest),
    ("DuplicateBundle", Named::DuplicateBundle),
    ("Unresolvable", Named::Unresolvable),
    ("Clash", Named::Clash),
    ("BudgetSpent", Named::BudgetSpent),
    ("ActivatorError", Named::ActivatorError),
    ("StartTransient", Named::StartTransient),
    ("NoSuchService", Named::NoSuchService),
    ("BadProperties", Named::BadProperties),
    ("NotOwner", Named::NotOwner),
    ("TooDeep", Named::TooDeep),
    ("HistoryFull", Named::HistoryFull),
    ("HandingsSpent", Named::HandingsSpent),
];

/// How a refusal is shown.
#[derive(Clone, Copy)]
pub enum Form {
    /// Its number and its name.
    Name,
    /// The line that the console writes of it.
    Line,
}

/// Some tag.
const BY: Tag = Tag {
    caller: 3,
    command: 7,
};

fn find(name: &str) -> Option<Named> {
    for (word, named) in &NAMED {
        if *word == name {
            return Some(*named);
        }
    }
    many_named(name).map(Named::TooMany)
}

/// A refusal that says what is wrong with a manifest.
fn manifest_error(header: Text, kind: ManifestKind, at: u64) -> Refusal {
    let fault = ManifestFault { header, kind, at };
    Refusal::ManifestError { fault }
}

/// A cause that says a requirement.
fn no_candidate(alloc: Global) -> Result<Unmet, AllocError> {
    let namespace = text_of(alloc, "osgi.wiring.package")?;
    let name = text_of(alloc, "a.b")?;
    Ok(Unmet::NoCandidate { namespace, name })
}

fn refusal_of(alloc: Global, named: Named) -> Result<Refusal, AllocError> {
    Ok(match named {
        Named::NoSuchBundle => Refusal::NoSuchBundle,
        Named::InvalidOperation => Refusal::InvalidOperation,
        Named::StateChange => Refusal::StateChange { by: BY },
        Named::Refreshing => Refusal::Refreshing { by: BY },
        Named::ReadError => Refusal::ReadError,
        Named::NoFolder => Refusal::NoFolder,
        Named::ManifestError => manifest_error(
            text_of(alloc, "Bundle-Version")?,
            ManifestKind::BadVersion,
            12,
        ),
        Named::NoManifest => manifest_error(Text::empty(), ManifestKind::NoManifest, 0),
        Named::DuplicateBundle => Refusal::DuplicateBundle {
            bundle: BundleId(5),
        },
        Named::Unresolvable => Refusal::Unresolvable {
            cause: no_candidate(alloc)?,
        },
        Named::Clash => Refusal::Unresolvable {
            cause: Unmet::Clash,
        },
        Named::BudgetSpent => Refusal::BudgetSpent { visited: 9 },
        Named::ActivatorError => Refusal::ActivatorError,
        Named::StartTransient => Refusal::StartTransient,
        Named::NoSuchService => Refusal::NoSuchService,
        Named::BadProperties => Refusal::BadProperties,
        Named::NotOwner => Refusal::NotOwner { owner: BundleId(5) },
        Named::TooDeep => Refusal::TooDeep,
        Named::TooMany(kind) => Refusal::TooMany { kind },
        Named::HistoryFull => Refusal::HistoryFull,
        Named::HandingsSpent => Refusal::HandingsSpent,
    })
}

/// The entry of an operation that was refused so.
fn refused(refusal: Refusal) -> Entry {
    Entry {
        tag: BY,
        op: Op::ListServices,
        reply: Reply::Refused { refusal },
    }
}

/// Adds the number of a refusal, and the name of its copy.
fn add_copied(alloc: Global, out: &mut String, refusal: &Refusal) -> Result<(), AllocError> {
    let copy = refusal.copy(alloc)?;
    put_shown(out, &refusal.number())?;
    put(out, " ")?;
    put(out, copy.name())
}

fn add_named(alloc: Global, out: &mut String, named: Named, form: Form) -> Result<(), AllocError> {
    let refusal = refusal_of(alloc, named)?;
    match form {
        Form::Name => add_copied(alloc, out, &refusal),
        Form::Line => add_shown(alloc, out, &refused(refusal)),
    }
}

/// Adds a refusal in this form. The name of what there is too many of stands for TooMany, Clash for an Unresolvable
/// with that cause, and NoManifest for a ManifestError that names no header.
pub fn add_refusal(
    alloc: Global,
    out: &mut String,
    name: &str,
    form: Form,
) -> Result<(), AllocError> {
    match find(name) {
        Some(named) => add_named(alloc, out, named, form),
        None => put(out, "no refusal"),
    }
}
