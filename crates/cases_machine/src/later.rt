//! Operations that the framework does not have yet, which no command of the console says.

use cases_text::text_of;
use osgi_base::{BundleId, List, ServiceId, Text};
use osgi_ops::{ObjectId, Op, Scope};
use std::alloc::{AllocError, Global};

/// Operations that have neither a text nor a list.
#[derive(Clone, Copy)]
enum Plain {
    GetOwn,
    EndMake,
    UngetOwn,
    Await,
    Uninstall,
    DropWirings,
    EndRefresh,
    BeginLevel,
    ListLevel,
    MoveLevel,
    EndLevel,
    SetBundleLevel,
}

/// Operations that have a text.
#[derive(Clone, Copy)]
enum Wordy {
    Give,
    Update,
}

const PLAIN: [(&str, Plain); 12] = [
    ("GetOwn", Plain::GetOwn),
    ("EndMake", Plain::EndMake),
    ("UngetOwn", Plain::UngetOwn),
    ("Await", Plain::Await),
    ("Uninstall", Plain::Uninstall),
    ("DropWirings", Plain::DropWirings),
    ("EndRefresh", Plain::EndRefresh),
    ("BeginLevel", Plain::BeginLevel),
    ("ListLevel", Plain::ListLevel),
    ("MoveLevel", Plain::MoveLevel),
    ("EndLevel", Plain::EndLevel),
    ("SetBundleLevel", Plain::SetBundleLevel),
];

const WORDY: [(&str, Wordy); 2] = [("Give", Wordy::Give), ("Update", Wordy::Update)];

fn plain_named(name: &str) -> Option<Plain> {
    for (word, plain) in &PLAIN {
        if *word == name {
            return Some(*plain);
        }
    }
    None
}

fn wordy_named(name: &str) -> Option<Wordy> {
    for (word, wordy) in &WORDY {
        if *word == name {
            return Some(*wordy);
        }
    }
    None
}

fn plain_op(plain: Plain, bundle: BundleId) -> Op {
    match plain {
        Plain::GetOwn => Op::GetOwn {
            user: bundle,
            service: ServiceId(1),
        },
        Plain::EndMake => Op::EndMake { failed: false },
        Plain::UngetOwn => Op::UngetOwn {
            user: bundle,
            service: ServiceId(1),
            object: ObjectId(1),
        },
        Plain::Await => Op::Await { bundle },
        Plain::Uninstall => Op::Uninstall { bundle },
        Plain::DropWirings => Op::DropWirings,
        Plain::EndRefresh => Op::EndRefresh,
        Plain::BeginLevel => Op::BeginLevel { target_level: 2 },
        Plain::ListLevel => Op::ListLevel { level: 1 },
        Plain::MoveLevel => Op::MoveLevel { to: 2 },
        Plain::EndLevel => Op::EndLevel,
        Plain::SetBundleLevel => Op::SetBundleLevel { bundle, level: 1 },
    }
}

fn wordy_op(wordy: Wordy, owner: BundleId, text: Text) -> Op {
    match wordy {
        Wordy::Give => Op::Give { owner, text },
        Wordy::Update => Op::Update {
            bundle: owner,
            location: text,
        },
    }
}

/// A registration of a service whose users do not share one object.
fn factory(alloc: Global, owner: BundleId) -> Result<Op, AllocError> {
    Ok(Op::Register {
        owner,
        classes: List::new(alloc)?,
        object: text_of(alloc, "a text")?,
        scope: Scope::Bundle,
        properties: List::new(alloc)?,
    })
}

/// The operation of this name, about the bundle, that has neither a text nor a list.
pub fn later(name: &str, bundle: BundleId) -> Option<Op> {
    Some(plain_op(plain_named(name)?, bundle))
}

/// The operation of this name, about the bundle, that has a text or a list.
pub fn later_with_text(
    alloc: Global,
    name: &str,
    bundle: BundleId,
) -> Result<Option<Op>, AllocError> {
    if name == "BeginRefresh" {
        let bundles = List::new(alloc)?;
        return Ok(Some(Op::BeginRefresh { bundles }));
    }
    if name == "Factory" {
        return Ok(Some(factory(alloc, bundle)?));
    }
    match wordy_named(name) {
        Some(wordy) => Ok(Some(wordy_op(wordy, bundle, text_of(alloc, "a text")?))),
        None => Ok(None),
    }
}
