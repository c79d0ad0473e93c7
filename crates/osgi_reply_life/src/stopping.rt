//! What the begin and the end of a stop are answered, and what they change in the tables.

ghost use Rattle.std.specs.Prelude.{IfOk};
ghost use Rattle.osgi_ops.specs.declared.op.Op.TheVariants as op;
ghost use Rattle.osgi_tables.specs.Changes.{IsReplyAndChange};

use osgi_base::{BundleId, Tag};
use osgi_bundle::Begun;
use osgi_ops::{Op, Refusal, Reply, STOPPING, Target};
use osgi_tables::{Change, Tables};
use std::alloc::AllocError;

/// Decides the begin of a stop, as the table of bundles answers it. One that would run is refused where the caller has too many
/// brackets open.
pub fn begin_stop(
    tables: &Tables,
    tag: Tag,
    target: &Target,
    transient: bool,
) -> Result<(Reply, Change), AllocError>
    ensures decided { IfOk result (λ r.
        IsReplyAndChange (record { tag = tag; op = op.BeginStop target.now transient }) tables.now
        r.0 r.1) }
{
    let Some(bundle) = tables.bundles.target(target)? else {
        let refusal = Refusal::NoSuchBundle;
        return Ok((Reply::Refused { refusal }, Change::Nothing));
    };
    let begun = match tables.bundles.stop(bundle) {
        Ok(begun) => begun,
        Err(refusal) => return Ok((Reply::Refused { refusal }, Change::Nothing)),
    };
    let Begun::Run { row } = begun else {
        return Ok((Reply::Idle { bundle }, Change::Nothing));
    };
    if tables.brackets.is_full(tag.caller) {
        let refusal = Refusal::TooDeep;
        return Ok((Reply::Refused { refusal }, Change::Nothing));
    }
    Ok((
        Reply::Begun { bundle, row },
        Change::BeginStop { tag, bundle },
    ))
}

/// Decides the end of a stop. The stop has to be the innermost bracket of its caller, opened by the line of the tag.
pub fn end_stop(tables: &Tables, tag: Tag, bundle: BundleId, failed: bool) -> (Reply, Change)
    ensures decided { IsReplyAndChange (record { tag = tag; op = op.EndStop bundle failed })
        tables.now result.0 result.1 }
{
    let end = Op::EndStop { bundle, failed };
    // Where the bracket is open the bundle is stopping, by the same line.
    if !tables.brackets.is_end(tag, &end) || !tables.bundles.is_in_change(STOPPING, tag, bundle) {
        let refusal = Refusal::InvalidOperation;
        return (Reply::Refused { refusal }, Change::Nothing);
    }
    let change = Change::EndStop { tag, bundle };
    if failed {
        let refusal = Refusal::ActivatorError;
        return (Reply::Refused { refusal }, change);
    }
    (Reply::Done, change)
}
