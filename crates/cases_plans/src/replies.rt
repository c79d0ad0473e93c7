//! The replies of cases.

use crate::words::{bundles, last_text, level, number_at};
use osgi_base::{BundleId, List, ListenerId, ServiceId};
use osgi_ops::{Event, Kind, Refusal, Reply};
use std::alloc::{AllocError, Global};

#[derive(Clone, Copy)]
enum Word {
    Service,
    Done,
    Best,
    Handed,
    Nothing,
    Bundle,
    Resolved,
    Go,
    Active,
    Kept,
    Begun,
    Idle,
    Closure,
    Ids,
    Level,
    Moved,
    Leveled,
    Up,
    Job,
    NoJob,
    Refused,
    SectionFailed,
    TooDeep,
    HistoryFull,
    HandingsSpent,
}

const WORDS: [Word; 25] = [
    Word::Service,
    Word::Done,
    Word::Best,
    Word::Handed,
    Word::Nothing,
    Word::Bundle,
    Word::Resolved,
    Word::Go,
    Word::Active,
    Word::Kept,
    Word::Begun,
    Word::Idle,
    Word::Closure,
    Word::Ids,
    Word::Level,
    Word::Moved,
    Word::Leveled,
    Word::Up,
    Word::Job,
    Word::NoJob,
    Word::Refused,
    Word::SectionFailed,
    Word::TooDeep,
    Word::HistoryFull,
    Word::HandingsSpent,
];

impl Word {
    fn name(self) -> &'static str {
        match self {
            Word::Service => "Service",
            Word::Done => "Done",
            Word::Best => "Best",
            Word::Handed => "Handed",
            Word::Nothing => "Nothing",
            Word::Bundle => "Bundle",
            Word::Resolved => "Resolved",
            Word::Go => "Go",
            Word::Active => "Active",
            Word::Kept => "Kept",
            Word::Begun => "Begun",
            Word::Idle => "Idle",
            Word::Closure => "Closure",
            Word::Ids => "Ids",
            Word::Level => "Level",
            Word::Moved => "Moved",
            Word::Leveled => "Leveled",
            Word::Up => "Up",
            Word::Job => "Job",
            Word::NoJob => "NoJob",
            Word::Refused => "Refused",
            Word::SectionFailed => "SectionFailed",
            Word::TooDeep => "TooDeep",
            Word::HistoryFull => "HistoryFull",
            Word::HandingsSpent => "HandingsSpent",
        }
    }
}

fn word_named(word: &str) -> Option<Word> {
    WORDS.iter().copied().find(|known| known.name() == word)
}

/// The service of a number; none for 0.
fn service_if_any(number: u32) -> Option<ServiceId> {
    if number == 0 {
        None
    } else {
        Some(ServiceId(u64::from(number)))
    }
}

/// A reply with two numbers at most.
fn by_numbers(word: Word, first: u32, second: u32) -> Option<Reply> {
    let bundle = BundleId(first);
    match word {
        Word::Service => Some(Reply::Service {
            service: ServiceId(u64::from(first)),
        }),
        Word::Done => Some(Reply::Done),
        Word::Best => Some(Reply::Best {
            service: service_if_any(first),
        }),
        Word::Bundle => Some(Reply::Bundle {
            bundle,
            known: false,
        }),
        Word::Go => Some(Reply::Go { bundle }),
        Word::Active => Some(Reply::Active { bundle }),
        Word::Kept => Some(Reply::Kept { bundle }),
        Word::Begun => Some(Reply::Begun {
            bundle,
            row: second,
        }),
        Word::Idle => Some(Reply::Idle { bundle }),
        Word::Level => Some(Reply::Level {
            from: level(first),
            to: level(second),
        }),
        Word::Leveled => Some(Reply::Leveled { value: first == 1 }),
        Word::Up => Some(Reply::Up { bundle }),
        Word::NoJob => Some(Reply::NoJob),
        _ => None,
    }
}

fn refusal_of(word: Word) -> Option<Refusal> {
    match word {
        Word::Refused => Some(Refusal::InvalidOperation),
        Word::SectionFailed => Some(Refusal::ActivatorError),
        Word::TooDeep => Some(Refusal::TooDeep),
        Word::HistoryFull => Some(Refusal::HistoryFull),
        Word::HandingsSpent => Some(Refusal::HandingsSpent),
        _ => None,
    }
}

/// An event of the service of a number; one of the framework for 0.
fn event_of(number: u32) -> Event {
    match service_if_any(number) {
        Some(service) => Event::Service { code: 1, service },
        None => Event::Framework { code: 1 },
    }
}

/// An event that is handed: the listener, the bundle of the script, its row, the service, and the section's name.
fn handed(alloc: Global, answer: &str) -> Result<Reply, AllocError> {
    Ok(Reply::Handed {
        listener: ListenerId(number_at(answer, 1)),
        kind: Kind::All,
        owner: BundleId(number_at(answer, 2)),
        row: number_at(answer, 3),
        name: last_text(alloc, answer)?,
        event: event_of(number_at(answer, 4)),
    })
}

/// A job that is taken: the bundle of the script, its row, and the section's name.
fn job(alloc: Global, answer: &str) -> Result<Reply, AllocError> {
    Ok(Reply::Job {
        owner: BundleId(number_at(answer, 1)),
        row: number_at(answer, 2),
        name: last_text(alloc, answer)?,
    })
}

/// A reply with a list of bundles.
fn by_list(
    alloc: Global,
    word: Word,
    bundles: List<BundleId>,
) -> Result<Option<Reply>, AllocError> {
    match word {
        Word::Nothing => Ok(Some(Reply::Nothing {
            busy: List::new(alloc)?,
        })),
        Word::Resolved => Ok(Some(Reply::Resolved { added: bundles })),
        Word::Closure => Ok(Some(Reply::Closure {
            all: List::new(alloc)?,
            active: bundles,
        })),
        Word::Ids => Ok(Some(Reply::Ids { ids: bundles })),
        Word::Moved => Ok(Some(Reply::Moved { start: bundles })),
        _ => Ok(None),
    }
}

/// The reply that an answer writes.
pub fn reply_of(alloc: Global, answer: &str) -> Result<Option<Reply>, AllocError> {
    let (word, _) = answer.split_once(' ').unwrap_or((answer, ""));
    let Some(word) = word_named(word) else {
        return Ok(None);
    };
    if let Some(refusal) = refusal_of(word) {
        return Ok(Some(Reply::Refused { refusal }));
    }
    if let Word::Handed = word {
        return Ok(Some(handed(alloc, answer)?));
    }
    if let Word::Job = word {
        return Ok(Some(job(alloc, answer)?));
    }
    match by_numbers(word, number_at(answer, 1), number_at(answer, 2)) {
        Some(reply) => Ok(Some(reply)),
        None => by_list(alloc, word, bundles(alloc, answer)?),
    }
}
