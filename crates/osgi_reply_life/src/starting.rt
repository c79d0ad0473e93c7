//! What a wish to start a bundle, and the begin and the end of a start, are answered, and what they change in the tables.

ghost use Rattle.std.specs.Prelude.{IfOk};
ghost use Rattle.osgi_ops.specs.declared.op.Op.TheVariants as op;
ghost use Rattle.osgi_tables.specs.Changes.{IsReplyAndChange};
ghost use Rattle.osgi_tables.specs.Replied.{IsAnsweredToAll};

use osgi_base::{BundleId, Tag};
use osgi_bundle::Begun;
use osgi_ops::{ACTIVE, Op, Refusal, Reply, STARTING, Target};
use osgi_tables::{Change, Tables};
use std::alloc::AllocError;

/// Whether the bundle that a target stands for is to be started. Start levels do not change yet, so none is too high, and a
/// transient wish is answered as any other.
pub fn wish_start(tables: &Tables, target: &Target, transient: bool) -> Result<Reply, AllocError>
    ensures replied { IfOk result (IsAnsweredToAll (op.WishStart target.now transient) tables.now) }
{
    let Some(bundle) = tables.bundles.target(target)? else {
        let refusal = Refusal::NoSuchBundle;
        return Ok(Reply::Refused { refusal });
    };
    let Some(row) = tables.bundles.row(bundle) else {
        unreachable!()
    };
    if row.fragment {
        let refusal = Refusal::InvalidOperation;
        return Ok(Reply::Refused { refusal });
    }
    if let Some(by) = row.changed_by() {
        let refusal = Refusal::StateChange { by };
        return Ok(Reply::Refused { refusal });
    }
    if row.state == ACTIVE {
        return Ok(Reply::Active { bundle });
    }
    Ok(Reply::Go { bundle })
}

/// Decides the begin of a start, as the table of bundles answers it. One that would run is refused where the caller has too many
/// brackets open.
pub fn begin_start(tables: &Tables, tag: Tag, bundle: BundleId, transient: bool) -> (Reply, Change)
    ensures decided { IsReplyAndChange (record { tag = tag; op = op.BeginStart bundle transient })
        tables.now result.0 result.1 }
{
    let begun = match tables.bundles.start(bundle) {
        Ok(begun) => begun,
        Err(refusal) => return (Reply::Refused { refusal }, Change::Nothing),
    };
    let Begun::Run { row } = begun else {
        return (Reply::Active { bundle }, Change::Nothing);
    };
    if tables.brackets.is_full(tag.caller) {
        let refusal = Refusal::TooDeep;
        return (Reply::Refused { refusal }, Change::Nothing);
    }
    (
        Reply::Begun { bundle, row },
        Change::BeginStart { tag, bundle },
    )
}

/// Decides the end of a start. The start has to be the innermost bracket of its caller, opened by the line of the tag.
pub fn end_start(tables: &Tables, tag: Tag, bundle: BundleId, failed: bool) -> (Reply, Change)
    ensures decided { IsReplyAndChange (record { tag = tag; op = op.EndStart bundle failed })
        tables.now result.0 result.1 }
{
    let end = Op::EndStart { bundle, failed };
    // Where the bracket is open the bundle is starting, by the same line.
    if !tables.brackets.is_end(tag, &end) || !tables.bundles.is_in_change(STARTING, tag, bundle) {
        let refusal = Refusal::InvalidOperation;
        return (Reply::Refused { refusal }, Change::Nothing);
    }
    let change = Change::EndStart {
        tag,
        bundle,
        failed,
    };
    if failed {
        let refusal = Refusal::ActivatorError;
        return (Reply::Refused { refusal }, change);
    }
    (Reply::Done, change)
}
