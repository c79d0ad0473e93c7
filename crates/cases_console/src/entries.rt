//! Entries of the history by words.

use cases_operations::{entry_of as made_of, number};
use cases_text::{split_at, split_word, text_of};
use osgi_base::{BundleId, List, ListenerId, RevisionId, ServiceId, Tag, Text};
use osgi_ops::{Entry, Event, Kind, Op, Refusal, Reply, Target};
use std::alloc::{AllocError, Global};

/// Entries of numbers alone.
#[derive(Clone, Copy)]
enum Plain {
    Service,
    FoundOne,
    FoundNone,
    Unget,
    Listener,
    HandService,
    HandBundle,
    HandFramework,
    EndHand,
    NoJob,
    EndJob,
    Install,
    Go,
    Kept,
    Active,
    BeginStart,
    BeginStartKept,
    BeginStop,
    Idle,
    EndStart,
    EndStartFailed,
    EndStop,
    Uninstall,
    EndRefresh,
    Level,
    MoveLevel,
    MoveLevelRefused,
    EndLevel,
    BundleLevel,
    Up,
    Loaded,
    LoadedNone,
    Unregister,
    Refused,
}

/// Entries of a text.
#[derive(Clone, Copy)]
enum Worded {
    Object,
    QueueJob,
    TakeJob,
    Print,
    Fail,
    Update,
    Unlisten,
    UnlistenNone,
}

/// Entries of bundles.
#[derive(Clone, Copy)]
enum Listed {
    Resolved,
    Closure,
    Drop,
    ListLevel,
    Modify,
}

const PLAIN: [(&str, Plain); 34] = [
    ("service", Plain::Service),
    ("found-one", Plain::FoundOne),
    ("found-none", Plain::FoundNone),
    ("unget", Plain::Unget),
    ("listener", Plain::Listener),
    ("hand-service", Plain::HandService),
    ("hand-bundle", Plain::HandBundle),
    ("hand-framework", Plain::HandFramework),
    ("end-hand", Plain::EndHand),
    ("no-job", Plain::NoJob),
    ("end-job", Plain::EndJob),
    ("install", Plain::Install),
    ("go", Plain::Go),
    ("kept", Plain::Kept),
    ("active", Plain::Active),
    ("begin-start", Plain::BeginStart),
    ("begin-start-kept", Plain::BeginStartKept),
    ("begin-stop", Plain::BeginStop),
    ("idle", Plain::Idle),
    ("end-start", Plain::EndStart),
    ("end-start-failed", Plain::EndStartFailed),
    ("end-stop", Plain::EndStop),
    ("uninstall", Plain::Uninstall),
    ("end-refresh", Plain::EndRefresh),
    ("level", Plain::Level),
    ("move-level", Plain::MoveLevel),
    ("move-level-refused", Plain::MoveLevelRefused),
    ("end-level", Plain::EndLevel),
    ("blevel", Plain::BundleLevel),
    ("up", Plain::Up),
    ("loaded", Plain::Loaded),
    ("loaded-none", Plain::LoadedNone),
    ("unregister", Plain::Unregister),
    ("refused", Plain::Refused),
];

const WORDED: [(&str, Worded); 8] = [
    ("object", Worded::Object),
    ("queue-job", Worded::QueueJob),
    ("take-job", Worded::TakeJob),
    ("print", Worded::Print),
    ("fail", Worded::Fail),
    ("update", Worded::Update),
    ("unlisten", Worded::Unlisten),
    ("unlisten-none", Worded::UnlistenNone),
];

const LISTED: [(&str, Listed); 5] = [
    ("resolved", Listed::Resolved),
    ("closure", Listed::Closure),
    ("drop", Listed::Drop),
    ("list-level", Listed::ListLevel),
    ("modify", Listed::Modify),
];

fn plain_named(name: &str) -> Option<Plain> {
    for (word, plain) in &PLAIN {
        if *word == name {
            return Some(*plain);
        }
    }
    None
}

fn worded_named(name: &str) -> Option<Worded> {
    for (word, worded) in &WORDED {
        if *word == name {
            return Some(*worded);
        }
    }
    None
}

fn listed_named(name: &str) -> Option<Listed> {
    for (word, listed) in &LISTED {
        if *word == name {
            return Some(*listed);
        }
    }
    None
}

/// The last byte of a number.
fn small(number: u32) -> u8 {
    (number % 256) as u8
}

/// The reply that an event is handed to a listener.
fn handed(listener: u32, event: Event, name: Text) -> Reply {
    Reply::Handed {
        listener: ListenerId(listener),
        kind: Kind::All,
        owner: BundleId(1),
        row: 0,
        name,
        event,
    }
}

/// The operation of an entry of numbers, which begin with the one of a bundle, a service or a listener.
fn plain_op(plain: Plain, first: u32, second: u32) -> Op {
    let bundle = BundleId(first);
    let service = ServiceId(u64::from(first));
    match plain {
        Plain::HandService | Plain::HandBundle | Plain::HandFramework => Op::Hand,
        Plain::EndHand => Op::EndHand {
            listener: ListenerId(first),
        },
        Plain::NoJob => Op::TakeJob,
        Plain::EndJob => Op::EndJob,
        Plain::BeginStart | Plain::BeginStartKept => Op::BeginStart {
            bundle,
            transient: false,
        },
        Plain::BeginStop | Plain::Idle => Op::BeginStop {
            target: Target::Id(bundle),
            transient: false,
        },
        Plain::EndStart => Op::EndStart {
            bundle,
            failed: false,
        },
        Plain::EndStartFailed => Op::EndStart {
            bundle,
            failed: true,
        },
        Plain::EndStop => Op::EndStop {
            bundle,
            failed: false,
        },
        Plain::Uninstall => Op::Uninstall { bundle },
        Plain::EndRefresh => Op::EndRefresh,
        Plain::Level => Op::BeginLevel {
            target_level: small(second),
        },
        Plain::MoveLevel | Plain::MoveLevelRefused => Op::MoveLevel { to: small(first) },
        Plain::EndLevel => Op::EndLevel,
        Plain::BundleLevel | Plain::Up => Op::SetBundleLevel {
            bundle,
            level: small(second),
        },
        Plain::Unget => Op::Unget {
            user: BundleId(0),
            service,
        },
        Plain::Unregister => Op::Unregister {
            owner: BundleId(0),
            service,
        },
        Plain::Go | Plain::Kept | Plain::Active => Op::WishStart {
            target: Target::Id(bundle),
            transient: false,
        },
        _ => Op::ListServices,
    }
}

/// The reply of an entry of numbers.
fn plain_reply(
    alloc: Global,
    plain: Plain,
    first: u32,
    second: u32,
    third: u32,
) -> Result<Reply, AllocError> {
    let bundle = BundleId(first);
    let service = ServiceId(u64::from(first));
    Ok(match plain {
        Plain::Service => Reply::Service { service },
        Plain::FoundOne => Reply::Best {
            service: Some(service),
        },
        Plain::FoundNone => Reply::Best { service: None },
        Plain::Unget => Reply::Flag { value: second == 1 },
        Plain::Listener => Reply::Listener {
            listener: ListenerId(first),
        },
        Plain::HandService => handed(
            first,
            Event::Service {
                code: small(second),
                service: ServiceId(u64::from(third)),
            },
            text_of(alloc, "on")?,
        ),
        Plain::HandBundle => handed(
            first,
            Event::Bundle {
                code: (second % 65_536) as u16,
                bundle: BundleId(third),
            },
            text_of(alloc, "on")?,
        ),
        Plain::HandFramework => handed(
            first,
            Event::Framework {
                code: small(second),
            },
            text_of(alloc, "on")?,
        ),
        Plain::NoJob => Reply::NoJob,
        Plain::Install => Reply::Bundle {
            bundle,
            known: false,
        },
        Plain::Go => Reply::Go { bundle },
        Plain::Kept | Plain::BeginStartKept => Reply::Kept { bundle },
        Plain::Active => Reply::Active { bundle },
        Plain::BeginStart | Plain::BeginStop => Reply::Begun { bundle, row: 0 },
        Plain::Idle => Reply::Idle { bundle },
        Plain::EndStartFailed => Reply::Refused {
            refusal: Refusal::ActivatorError,
        },
        Plain::Refused | Plain::MoveLevelRefused => Reply::Refused {
            refusal: Refusal::InvalidOperation,
        },
        Plain::Level => Reply::Level {
            from: small(first),
            to: small(second),
        },
        Plain::MoveLevel => Reply::Moved {
            start: List::new(alloc)?,
        },
        Plain::BundleLevel => Reply::Leveled { value: true },
        Plain::Up => Reply::Up { bundle },
        Plain::Loaded => Reply::Loaded {
            by: Some(RevisionId(first)),
        },
        Plain::LoadedNone => Reply::Loaded { by: None },
        _ => Reply::Done,
    })
}

/// What an entry of a text asks for, of bundle 1.
fn worded_op(worded: Worded, text: Text) -> Op {
    let owner = BundleId(1);
    match worded {
        Worded::QueueJob => Op::QueueJob { owner, name: text },
        Worded::Print => Op::Print { owner, text },
        Worded::Fail => Op::Fail { owner, text },
        Worded::Update => Op::Update {
            bundle: owner,
            location: text,
        },
        Worded::Object => Op::Get {
            user: owner,
            service: ServiceId(1),
        },
        Worded::TakeJob => Op::TakeJob,
        Worded::Unlisten | Worded::UnlistenNone => Op::RemoveListener { owner, name: text },
    }
}

/// What is answered to an entry of a text.
fn worded_reply(worded: Worded, text: Text) -> Reply {
    match worded {
        Worded::Object => Reply::Object { text },
        Worded::TakeJob => Reply::Job {
            owner: BundleId(1),
            row: 0,
            name: text,
        },
        Worded::Unlisten => Reply::Flag { value: true },
        Worded::UnlistenNone => Reply::Flag { value: false },
        _ => Reply::Done,
    }
}

/// A change of service 5 to no properties.
fn modify(alloc: Global) -> Result<Op, AllocError> {
    Ok(Op::Modify {
        owner: BundleId(1),
        service: ServiceId(5),
        properties: List::new(alloc)?,
    })
}

/// What an entry of bundles asks for.
fn listed_op(alloc: Global, listed: Listed) -> Result<Op, AllocError> {
    if let Listed::Modify = listed {
        return modify(alloc);
    }
    Ok(match listed {
        Listed::Resolved => Op::Resolve {
            bundle: BundleId(1),
        },
        Listed::Closure => Op::ListBundles,
        Listed::Drop => Op::DropWirings,
        Listed::ListLevel => Op::ListLevel { level: 1 },
        Listed::Modify => Op::ListServices,
    })
}

/// What is answered to an entry of bundles; none of them is active.
fn listed_reply(listed: Listed, bundles: List<BundleId>, active: List<BundleId>) -> Reply {
    match listed {
        Listed::Resolved => Reply::Resolved { added: bundles },
        Listed::Closure => Reply::Closure {
            all: bundles,
            active,
        },
        Listed::Drop | Listed::ListLevel => Reply::Ids { ids: bundles },
        Listed::Modify => Reply::Done,
    }
}

/// The bundles whose numbers words write.
fn bundles_of(alloc: Global, words: &str) -> Result<List<BundleId>, AllocError> {
    let mut bundles = List::new(alloc)?;
    for word in words.split_ascii_whitespace() {
        bundles.push(BundleId(number(word)))?;
    }
    Ok(bundles)
}

/// The tag that a word writes, as `0.1`.
fn tag_of(word: &str) -> Tag {
    let (caller, command) = split_at(word, ".");
    Tag {
        caller: number(caller),
        command: number(command),
    }
}

/// The entry of numbers that words write.
fn plain_entry(alloc: Global, tag: Tag, plain: Plain, words: &str) -> Result<Entry, AllocError> {
    let (first, rest) = split_word(words);
    let (second, third) = split_word(rest);
    let (first, second, third) = (number(first), number(second), number(third));
    made_of(
        tag,
        Ok(plain_op(plain, first, second)),
        plain_reply(alloc, plain, first, second, third),
    )
}

/// The entry of a text.
fn worded_entry(alloc: Global, tag: Tag, worded: Worded, text: &str) -> Result<Entry, AllocError> {
    let op = worded_op(worded, text_of(alloc, text)?);
    made_of(tag, Ok(op), Ok(worded_reply(worded, text_of(alloc, text)?)))
}

/// The entry of bundles that words write.
fn listed_entry(alloc: Global, tag: Tag, listed: Listed, words: &str) -> Result<Entry, AllocError> {
    let bundles = bundles_of(alloc, words)?;
    made_of(
        tag,
        listed_op(alloc, listed),
        Ok(listed_reply(listed, bundles, List::new(alloc)?)),
    )
}

/// The entry that a row writes; none where its word is of none.
pub fn entry_of(alloc: Global, row: &str) -> Result<Option<Entry>, AllocError> {
    let (tag, rest) = split_word(row);
    let (name, words) = split_word(rest);
    let tag = tag_of(tag);
    if let Some(plain) = plain_named(name) {
        return Ok(Some(plain_entry(alloc, tag, plain, words)?));
    }
    if let Some(worded) = worded_named(name) {
        return Ok(Some(worded_entry(alloc, tag, worded, words)?));
    }
    match listed_named(name) {
        Some(listed) => Ok(Some(listed_entry(alloc, tag, listed, words)?)),
        None => Ok(None),
    }
}
