//! Events that are handed, and hands that end.

ghost use Rattle.std.specs.Prelude.{◌≡◌, ℕ, [], IfOk};
ghost use Rattle.osgi_ops.specs.declared.op.Op.TheVariants as op;
ghost use Rattle.osgi_reply_listening.specs.Hands.{handed_reply};
ghost use Rattle.osgi_tables.specs.Changes.{IsReplyAndChange};
ghost use Rattle.osgi_tables.specs.Replied.{end_reply, IsReplied};

use osgi_base::{ListenerId, Tag};
use osgi_bundle::Table;
use osgi_listeners::ListenerRow;
use osgi_ops::{Event, Op, Refusal, Reply};
use osgi_tables::{Change, Tables, depot_row};
use std::alloc::{AllocError, Global};

/// The reply of a hand of this event to this listener.
fn handed(
    alloc: Global,
    bundles: &Table,
    listener: &ListenerRow,
    event: Event,
) -> Result<Reply, AllocError>
    ensures handed { IfOk result (λ reply.
        reply ≡ handed_reply bundles.now.rows listener.now event) }
{
    Ok(Reply::Handed {
        listener: listener.listener,
        kind: listener.kind,
        owner: listener.owner,
        row: depot_row(bundles, listener.owner),
        name: listener.name.copy(alloc)?,
        event,
    })
}

/// Decides a hand: the earliest event that waits for a listener in no turn is handed, unless the caller has as many brackets open as
/// it may, or enough was handed. Where none waits, those that are busy are named.
pub fn hand(alloc: Global, tables: &Tables, tag: Tag) -> Result<(Reply, Change), AllocError>
    ensures decided { IfOk result (λ r.
        IsReplyAndChange (record { tag = tag; op = op.Hand }) tables.now r.0 r.1) }
{
    let Some((listener, event)) = tables.listeners.next() else {
        let busy = tables.listeners.busy()?;
        return Ok((Reply::Nothing { busy }, Change::Nothing));
    };
    if tables.brackets.is_full(tag.caller) {
        let refusal = Refusal::TooDeep;
        return Ok((Reply::Refused { refusal }, Change::Nothing));
    }
    if tables.handings_left == 0 {
        let refusal = Refusal::HandingsSpent;
        return Ok((Reply::Refused { refusal }, Change::Nothing));
    }
    let Some(row) = tables.listeners.row(listener) else {
        unreachable!()
    };
    let reply = handed(alloc, &tables.bundles, row, event)?;
    Ok((reply, Change::Hand { tag, listener }))
}

/// Ends a hand, which has to be the innermost bracket of its caller, opened by the line of the tag, and answers whether it was. It
/// takes no memory. No listener sees anything of it.
pub fn end_hand(tables: &mut Tables, tag: Tag, listener: ListenerId) -> bool
    ensures replied { (entries : ℕ)
        → IsReplied entries (record { tag = tag; op = op.EndHand listener }) tables.old tables.new
        (end_reply result) [] }
{
    let end = Op::EndHand { listener };
    if !tables.brackets.is_end(tag, &end) {
        return false;
    }
    // Where the bracket is open the listener is in a turn of the same line.
    if tables.listeners.end_hand(tag, listener).is_err() {
        return false;
    }
    tables.brackets.pop(tag.caller);
    true
}
