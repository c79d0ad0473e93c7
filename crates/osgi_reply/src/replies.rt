//! Operations carried out on the tables.
//!
//! What may fail comes first: the reply and the change are decided, and the reply is copied, for the caller and for the history.
//! The change comes last, and is made whole or not at all; listeners are told with it.

ghost use Rattle.std.specs.Prelude.{◌≡◌, ◌<◌, ℕ, false, true, All, None, IfOk, IsOk, OnErr};
ghost use Rattle.osgi_listeners.specs.Sights.{IsOfEarlier, sights_of};
ghost use Rattle.osgi_ops.specs.declared.op.Op.TheVariants as op;
ghost use Rattle.osgi_tables.specs.Asked.{asker_here, asker_refusal, is_hand_or_job_end, is_decided};
ghost use Rattle.osgi_tables.specs.Changes.{IsReplyAndChange};
ghost use Rattle.osgi_tables.specs.Replied.{end_reply, HasRoom, IsReplied, StandsStill};

use crate::listing::list_bundles;
use osgi_base::{ListenerId, Tag};
use osgi_listeners::Sight;
use osgi_ops::{Asked, Op, Refusal, Reply};
use osgi_reply_jobs::{end_job, queue_job, take_job};
use osgi_reply_life::{begin_start, begin_stop, end_start, end_stop, wish_start};
use osgi_reply_listening::{add_listener, end_hand, hand, remove_listener};
use osgi_reply_loading::{find, load};
use osgi_reply_resolving::{install, list_wires, resolve};
use osgi_reply_services::{ServiceChange, services};
use osgi_tables::{Change, Tables, asker_refusal};
use std::alloc::{AllocError, Global};

/// The refusal of an operation that the framework does not have yet, or of the end of a make, which nothing begins yet.
fn not_yet(tables: &Tables, asked: &Asked) -> (Reply, Change)
    requires unknown { is_decided asked.now.op ≡ false }
    ensures decided { IsReplyAndChange asked.now tables.now result.0 result.1 }
{
    let refusal = Refusal::InvalidOperation;
    (Reply::Refused { refusal }, Change::Nothing)
}

/// What is decided of the registry, as a change of the tables.
fn in_registry(decided: (Reply, ServiceChange)) -> (Reply, Change)
    ensures same { (result.0 ≡ decided.0) × (result.1 ≡ Change.Services decided.1) }
{
    let (reply, change) = decided;
    (reply, Change::Services { change })
}

/// A reply that changes nothing.
fn unchanging(reply: Reply) -> (Reply, Change)
    ensures same { (result.0 ≡ reply) × (result.1 ≡ Change.Nothing) }
{
    (reply, Change::Nothing)
}

/// Decides an operation whose asker, if it has one, may ask for it.
fn decide_by(
    alloc: Global,
    tables: &mut Tables,
    asked: &Asked,
) -> Result<(Reply, Change), AllocError>
    requires room { HasRoom tables.old }
    requires asker { asker_refusal tables.old.bundles (asker_here asked.now.op) ≡ None }
    requires no_end { is_hand_or_job_end asked.now.op ≡ false }
    ensures decided { IfOk result (λ r. IsReplyAndChange asked.now tables.old r.0 r.1) }
    ensures unchanged { tables.new ≡ tables.old }
{
    match &asked.op {
        Op::Register {
            owner,
            classes,
            object,
            scope,
            properties,
        } => Ok(in_registry(services::register(
            alloc,
            &tables.registry,
            *owner,
            classes,
            object,
            *scope,
            properties,
        )?)),
        Op::Modify {
            owner,
            service,
            properties,
        } => Ok(in_registry(services::modify(
            alloc,
            &tables.registry,
            *owner,
            *service,
            properties,
        )?)),
        Op::Unregister { owner, service } => Ok(in_registry(services::unregister(
            &tables.registry,
            *owner,
            *service,
        ))),
        Op::Find {
            asker,
            class,
            filter,
        } => Ok(unchanging(find(alloc, tables, *asker, class, filter)?)),
        Op::FindAll {
            asker,
            class,
            filter,
        } => Ok(unchanging(services::find_all(&tables.registry, *asker, class, filter)?)),
        Op::Get { user, service } => Ok(in_registry(services::get(
            alloc,
            &tables.registry,
            *user,
            *service,
        )?)),
        Op::Unget { user, service } => Ok(in_registry(services::unget(
            &tables.registry,
            *user,
            *service,
        ))),
        Op::AddListener {
            owner,
            name,
            kind,
            filter,
        } => add_listener(alloc, tables, *owner, name, *kind, filter),
        Op::RemoveListener { owner, name } => remove_listener(alloc, tables, *owner, name),
        Op::Hand => hand(alloc, tables, asked.tag),
        Op::EndHand { .. } => unreachable!(),
        Op::EndJob => unreachable!(),
        Op::QueueJob { owner, name } => queue_job(alloc, tables, *owner, name),
        Op::TakeJob => take_job(alloc, tables, asked.tag),
        Op::Print { .. } => Ok(unchanging(Reply::Done)),
        Op::Fail { .. } => Ok(unchanging(Reply::Done)),
        Op::Install { location } => install(alloc, tables, location),
        Op::Resolve { bundle } => resolve(alloc, tables, *bundle),
        Op::WishStart { target, transient } => {
            Ok(unchanging(wish_start(tables, target, *transient)?))
        }
        Op::BeginStart { bundle, transient } => {
            Ok(begin_start(tables, asked.tag, *bundle, *transient))
        }
        Op::EndStart { bundle, failed } => Ok(end_start(tables, asked.tag, *bundle, *failed)),
        Op::BeginStop { target, transient } => begin_stop(tables, asked.tag, target, *transient),
        Op::EndStop { bundle, failed } => Ok(end_stop(tables, asked.tag, *bundle, *failed)),
        Op::Load { bundle, class } => Ok(unchanging(load(alloc, tables, *bundle, class)?)),
        Op::ListBundles => Ok(unchanging(list_bundles(alloc, &tables.bundles)?)),
        Op::ListServices => Ok(unchanging(services::list_services(alloc, &tables.registry)?)),
        Op::ListWires { bundle } => Ok(unchanging(list_wires(alloc, tables, *bundle)?)),
        _ => Ok(not_yet(tables, asked)),
    }
}

/// Decides an operation that ends no hand and no job: its reply, and what it changes.
fn decide(alloc: Global, tables: &mut Tables, asked: &Asked) -> Result<(Reply, Change), AllocError>
    requires room { HasRoom tables.old }
    requires no_end { is_hand_or_job_end asked.now.op ≡ false }
    ensures decided { IfOk result (λ r. IsReplyAndChange asked.now tables.old r.0 r.1) }
    ensures unchanged { tables.new ≡ tables.old }
{
    match asker_refusal(&tables.bundles, &asked.op) {
        Some(refusal) => Ok((Reply::Refused { refusal }, Change::Nothing)),
        None => decide_by(alloc, tables, asked),
    }
}

/// An operation that was carried out.
pub struct Replied {
    pub reply: Reply,
    /// The same, for the history.
    pub kept: Reply,
    /// What listeners see of it.
    pub told: Vec<Sight>,
}

/// Carries out an operation that ends no hand and no job, by the entry before which there are so many. If memory runs out, the tables
/// stand for what they did.
fn change_by(
    alloc: Global,
    tables: &mut Tables,
    asked: &Asked,
    entries: u64,
) -> Result<Replied, AllocError>
    requires room { HasRoom tables.old }
    requires countable { entries < 4294967295 }
    requires earlier { All (IsOfEarlier entries) tables.old.listeners.rows }
    requires no_end { is_hand_or_job_end asked.now.op ≡ false }
    ensures copied { IfOk result (λ r. r.kept ≡ r.reply) }
    ensures replied { IfOk result (λ r.
        IsReplied entries asked.now tables.old tables.new r.reply (sights_of r.told.items)) }
    ensures unchanged { OnErr result (StandsStill tables.old tables.new) }
{
    let (reply, change) = decide(alloc, tables, asked)?;
    let kept = reply.copy(alloc)?;
    let told = change.make(alloc, tables, entries)?;
    Ok(Replied { reply, kept, told })
}

/// The reply to the end of a hand or of a job, which is refused if it ended none.
fn end_reply(ended: bool) -> Reply
    ensures reply { result ≡ end_reply ended }
{
    if ended {
        return Reply::Done;
    }
    let refusal = Refusal::InvalidOperation;
    Reply::Refused { refusal }
}

/// Carries out the end of a hand. It takes no memory.
fn end_of_hand(alloc: Global, tables: &mut Tables, tag: Tag, listener: ListenerId) -> Replied
    ensures copied { result.kept ≡ result.reply }
    ensures replied { (entries : ℕ)
        → IsReplied entries (record { tag = tag; op = op.EndHand listener }) tables.old tables.new
        result.reply (sights_of result.told.items) }
{
    let ended = end_hand(tables, tag, listener);
    Replied {
        reply: end_reply(ended),
        kept: end_reply(ended),
        told: Vec::new(alloc),
    }
}

/// Carries out the end of a job. It takes no memory.
fn end_of_job(alloc: Global, tables: &mut Tables, tag: Tag) -> Replied
    ensures copied { result.kept ≡ result.reply }
    ensures replied { (entries : ℕ)
        → IsReplied entries (record { tag = tag; op = op.EndJob }) tables.old tables.new result.reply
        (sights_of result.told.items) }
{
    let ended = end_job(tables, tag);
    Replied {
        reply: end_reply(ended),
        kept: end_reply(ended),
        told: Vec::new(alloc),
    }
}

/// Carries an operation out, by the entry before which there are so many. If memory runs out, the tables stand for what they did.
/// The end of a hand and that of a job take no memory.
pub fn reply_to(
    alloc: Global,
    tables: &mut Tables,
    asked: &Asked,
    entries: u64,
) -> Result<Replied, AllocError>
    requires room { HasRoom tables.old }
    requires countable { entries < 4294967295 }
    requires earlier { All (IsOfEarlier entries) tables.old.listeners.rows }
    ensures copied { IfOk result (λ r. r.kept ≡ r.reply) }
    ensures replied { IfOk result (λ r.
        IsReplied entries asked.now tables.old tables.new r.reply (sights_of r.told.items)) }
    ensures no_memory { is_hand_or_job_end asked.now.op ≡ true → IsOk result }
    ensures unchanged { OnErr result (StandsStill tables.old tables.new) }
{
    match &asked.op {
        Op::EndHand { listener } => Ok(end_of_hand(alloc, tables, asked.tag, *listener)),
        Op::EndJob => Ok(end_of_job(alloc, tables, asked.tag)),
        _ => change_by(alloc, tables, asked, entries),
    }
}
