//! Listeners that are added and removed.

ghost use Rattle.std.specs.Prelude.{◌≡◌, None, Some, IfOk, Option};
ghost use Rattle.osgi_model.specs.declared.filter.Filter.{Filter};
ghost use Rattle.osgi_ops.specs.declared.op.Op.TheVariants as op;
ghost use Rattle.osgi_tables.specs.Asked.{asker_refusal};
ghost use Rattle.osgi_tables.specs.Changes.{IsReplyAndChangeToAll};
ghost use Rattle.osgi_tables.specs.Replied.{HasRoom};

use osgi_base::{BundleId, Text, copy_two};
use osgi_model::Filter;
use osgi_ops::{Kind, Reply};
use osgi_tables::{Change, Tables};
use std::alloc::{AllocError, Global};

/// Decides whether a listener is added. Its owner, which may ask, has to have none of this name.
pub fn add_listener(
    alloc: Global,
    tables: &Tables,
    owner: BundleId,
    name: &Text,
    kind: Kind,
    filter: &Option<Filter>,
) -> Result<(Reply, Change), AllocError>
    requires room { HasRoom tables.now }
    requires asker { asker_refusal tables.now.bundles (Some owner) ≡ None }
    ensures decided { IfOk result (λ r.
        IsReplyAndChangeToAll (op.AddListener owner name.now kind filter.now) tables.now r.0 r.1) }
{
    if let Some(refusal) = tables.listeners.add_refusal(owner, name) {
        return Ok((Reply::Refused { refusal }, Change::Nothing));
    }
    let (name, filter) = copy_two(name, filter, alloc)?;
    let change = Change::Listen {
        owner,
        name,
        kind,
        filter,
    };
    let listener = tables.listeners.next_id();
    Ok((Reply::Listener { listener }, change))
}

/// Decides whether a listener is removed: the one of its owner, which may ask, and of this name, if it is live.
pub fn remove_listener(
    alloc: Global,
    tables: &Tables,
    owner: BundleId,
    name: &Text,
) -> Result<(Reply, Change), AllocError>
    requires asker { asker_refusal tables.now.bundles (Some owner) ≡ None }
    ensures decided { IfOk result (λ r.
        IsReplyAndChangeToAll (op.RemoveListener owner name.now) tables.now r.0 r.1) }
{
    let value = tables.listeners.has(owner, name);
    let change = Change::Unlisten {
        owner,
        name: name.copy(alloc)?,
    };
    Ok((Reply::Flag { value }, change))
}
