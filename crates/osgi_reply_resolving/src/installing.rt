//! What an install answers, and changes in the tables.

ghost use Rattle.std.specs.Prelude.{◌≡◌, ◌<◌, ◌+◌, Some, is_some, IfOk};
ghost use Rattle.osgi_base.specs.Verdict.{Gives};
ghost use Rattle.osgi_bundle.specs.Rows.{row_refusals, new_row, verdict_of};
ghost use Rattle.osgi_ops.specs.declared.op.Op.TheVariants as op;
ghost use Rattle.osgi_ops.specs.Conditions.{depot_refusal};
ghost use Rattle.osgi_tables.specs.Replied.{HasRoom};
ghost use Rattle.osgi_tables.specs.Changes.{IsReplyAndChangeToAll};

use osgi_base::{Shared, Text};
use osgi_bundle::{BundleKept, Table};
use osgi_ops::{Many, Refusal, Reply, Stored};
use osgi_tables::{Change, Tables};
use osgi_world::Revision;
use std::alloc::{AllocError, Global};

/// Why a bundle cannot be installed by what the depot has at its location, if there is a reason.
fn refusal_by(alloc: Global, stored: &Stored) -> Result<Option<Refusal>, AllocError>
    ensures refusal { IfOk result (λ refusal. refusal ≡ depot_refusal (Some stored.now)) }
{
    match stored {
        Stored::Read { .. } => Ok(None),
        Stored::Bad(fault) => Ok(Some(Refusal::ManifestError {
            fault: fault.copy(alloc)?,
        })),
        Stored::NoFolder => Ok(Some(Refusal::NoFolder)),
        Stored::TooLarge { .. } | Stored::Failed { .. } => Ok(Some(Refusal::ReadError)),
        Stored::Skipped => Ok(Some(Refusal::TooMany {
            kind: Many::Locations,
        })),
    }
}

/// The bundle as it is installed next from a row of the depot.
fn make(
    alloc: Global,
    bundles: &Table,
    location: &Text,
    row: u32,
    revision: &Shared<Revision>,
) -> Result<Result<BundleKept, Refusal>, AllocError>
    requires ids { bundles.now.issued < u32.MAX }
    ensures answer { IfOk result (λ answer.
        Gives (row_refusals revision.now.name revision.now.version bundles.now.rows)
        (λ made.
        made
        ≡ new_row (record { 0 = bundles.now.issued + 1 }) location.now revision.now.name
        revision.now.version (is_some revision.now.host) row) (verdict_of answer)) }
{
    let name = revision.get().name.copy(alloc)?;
    let version = revision.get().version.copy(alloc)?;
    let fragment = revision.get().host.is_some();
    let made = bundles.make(location.copy(alloc)?, name, version, fragment, row)?;
    Ok(made)
}

/// Installs the bundle of a location, where none was installed from it.
pub fn install(
    alloc: Global,
    tables: &Tables,
    location: &Text,
) -> Result<(Reply, Change), AllocError>
    requires room { HasRoom tables.now }
    ensures decided { IfOk result (λ r.
        IsReplyAndChangeToAll (op.Install location.now) tables.now r.0 r.1) }
{
    if let Some(bundle) = tables.bundles.from_location(location) {
        let known = true;
        return Ok((Reply::Bundle { bundle, known }, Change::Nothing));
    }
    let Some((row, stored)) = tables.depot.find(location) else {
        let refusal = Refusal::NoFolder;
        return Ok((Reply::Refused { refusal }, Change::Nothing));
    };
    if let Stored::Read { revision, .. } = stored {
        return match make(alloc, &tables.bundles, location, row, revision)? {
            Ok(made) => {
                let (bundle, known) = (made.bundle, false);
                let revision = revision.copy(alloc)?;
                Ok((
                    Reply::Bundle { bundle, known },
                    Change::Install { made, revision },
                ))
            }
            Err(refusal) => Ok((Reply::Refused { refusal }, Change::Nothing)),
        };
    }
    match refusal_by(alloc, stored)? {
        Some(refusal) => Ok((Reply::Refused { refusal }, Change::Nothing)),
        None => unreachable!(),
    }
}
