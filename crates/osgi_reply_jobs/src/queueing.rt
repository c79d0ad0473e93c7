//! Jobs that are queued and taken, and jobs that end.

ghost use Rattle.std.specs.Prelude.{◌≡◌, ℕ, [], None, Some, IfOk};
ghost use Rattle.osgi_ops.specs.declared.op.Op.TheVariants as op;
ghost use Rattle.osgi_tables.specs.Asked.{asker_refusal};
ghost use Rattle.osgi_tables.specs.Changes.{IsReplyAndChange, IsReplyAndChangeToAll};
ghost use Rattle.osgi_tables.specs.Replied.{end_reply, IsReplied};

use osgi_base::{BundleId, Tag, Text};
use osgi_ops::{Many, Op, Refusal, Reply};
use osgi_tables::{Change, Tables, depot_row};
use std::alloc::{AllocError, Global};

/// Decides whether a job is queued, for an owner which may ask: as many may be queued as the limit says.
pub fn queue_job(
    alloc: Global,
    tables: &Tables,
    owner: BundleId,
    name: &Text,
) -> Result<(Reply, Change), AllocError>
    requires asker { asker_refusal tables.now.bundles (Some owner) ≡ None }
    ensures decided { IfOk result (λ r.
        IsReplyAndChangeToAll (op.QueueJob owner name.now) tables.now r.0 r.1) }
{
    if tables.jobs.is_full() {
        let refusal = Refusal::TooMany { kind: Many::Jobs };
        return Ok((Reply::Refused { refusal }, Change::Nothing));
    }
    let name = name.copy(alloc)?;
    Ok((Reply::Done, Change::Queue { owner, name }))
}

/// Decides whether a job is taken: the oldest is, unless the caller has as many brackets open as it may.
pub fn take_job(alloc: Global, tables: &Tables, tag: Tag) -> Result<(Reply, Change), AllocError>
    ensures decided { IfOk result (λ r.
        IsReplyAndChange (record { tag = tag; op = op.TakeJob }) tables.now r.0 r.1) }
{
    let Some(oldest) = tables.jobs.oldest() else {
        return Ok((Reply::NoJob, Change::Nothing));
    };
    if tables.brackets.is_full(tag.caller) {
        let refusal = Refusal::TooDeep;
        return Ok((Reply::Refused { refusal }, Change::Nothing));
    }
    let owner = oldest.owner;
    let row = depot_row(&tables.bundles, owner);
    let name = oldest.name.copy(alloc)?;
    Ok((Reply::Job { owner, row, name }, Change::TakeJob { tag }))
}

/// Ends a job, which has to be the innermost bracket of its caller, opened by the line of the tag, and answers whether it was. It
/// takes no memory. No listener sees anything of it.
pub fn end_job(tables: &mut Tables, tag: Tag) -> bool
    ensures replied { (entries : ℕ)
        → IsReplied entries (record { tag = tag; op = op.EndJob }) tables.old tables.new
        (end_reply result) [] }
{
    if !tables.brackets.is_end(tag, &Op::EndJob) {
        return false;
    }
    tables.brackets.pop(tag.caller);
    true
}
