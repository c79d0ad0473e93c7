//! The list of bundles.

ghost use Rattle.std.specs.Prelude.{◌≡◌, IfOk, map};
ghost use Rattle.osgi_bundle.specs.Rows.{first_level_of, row_of};
ghost use Rattle.osgi_ops.specs.declared.reply.Reply.TheVariants as answer;

use osgi_base::{BundleId, List};
use osgi_bundle::{BundleKept, Table};
use osgi_ops::{BundleRow, Reply};
use std::alloc::{AllocError, Global};

/// What a list of bundles shows of one.
fn row(alloc: Global, kept: &BundleKept) -> Result<BundleRow, AllocError>
    ensures row { IfOk result (λ row. row ≡ row_of kept.now) }
{
    Ok(BundleRow {
        bundle: kept.bundle,
        state: kept.state,
        level: level(kept.bundle),
        name: kept.name.copy(alloc)?,
        version: kept.version.copy(alloc)?,
    })
}

/// The start level of a bundle. Nothing changes one yet.
fn level(bundle: BundleId) -> u8
    ensures level { result ≡ first_level_of bundle }
{
    if bundle.0 == 0 { 0 } else { 1 }
}

/// All live bundles, by rising id.
fn rows(alloc: Global, bundles: &Table) -> Result<List<BundleRow>, AllocError>
    ensures rows { IfOk result (λ rows. rows ≡ map row_of bundles.now.rows) }
{
    let mut rows = List::new(alloc)?;
    for kept in bundles.rows() {
        rows.push(row(alloc, kept)?)?;
    }
    Ok(rows)
}

pub fn list_bundles(alloc: Global, bundles: &Table) -> Result<Reply, AllocError>
    ensures listed { IfOk result (λ reply. reply ≡ answer.Bundles (map row_of bundles.now.rows)) }
{
    let rows = rows(alloc, bundles)?;
    Ok(Reply::Bundles { rows })
}
