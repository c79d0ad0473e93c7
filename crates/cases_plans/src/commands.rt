//! The commands of cases.

use crate::words::{bundles, last_text, level, number_at};
use osgi_base::{BundleId, List, ServiceId, Text};
use osgi_ops::{Kind, Target};
use osgi_session::Command;
use std::alloc::{AllocError, Global};

#[derive(Clone, Copy)]
enum Verb {
    Register,
    Modify,
    Unregister,
    Find,
    FindAll,
    Get,
    Unget,
    Start,
    Stop,
    Load,
    Install,
    Update,
    Uninstall,
    Resolve,
    Refresh,
    Wires,
    Level,
    BundleLevel,
    Bundles,
    Services,
    Listen,
    Unlisten,
    Job,
    Print,
    Fail,
}

const VERBS: [Verb; 25] = [
    Verb::Register,
    Verb::Modify,
    Verb::Unregister,
    Verb::Find,
    Verb::FindAll,
    Verb::Get,
    Verb::Unget,
    Verb::Start,
    Verb::Stop,
    Verb::Load,
    Verb::Install,
    Verb::Update,
    Verb::Uninstall,
    Verb::Resolve,
    Verb::Refresh,
    Verb::Wires,
    Verb::Level,
    Verb::BundleLevel,
    Verb::Bundles,
    Verb::Services,
    Verb::Listen,
    Verb::Unlisten,
    Verb::Job,
    Verb::Print,
    Verb::Fail,
];

impl Verb {
    fn name(self) -> &'static str {
        match self {
            Verb::Register => "register",
            Verb::Modify => "modify",
            Verb::Unregister => "unregister",
            Verb::Find => "find",
            Verb::FindAll => "findall",
            Verb::Get => "get",
            Verb::Unget => "unget",
            Verb::Start => "start",
            Verb::Stop => "stop",
            Verb::Load => "load",
            Verb::Install => "install",
            Verb::Update => "update",
            Verb::Uninstall => "uninstall",
            Verb::Resolve => "resolve",
            Verb::Refresh => "refresh",
            Verb::Wires => "wires",
            Verb::Level => "level",
            Verb::BundleLevel => "blevel",
            Verb::Bundles => "bundles",
            Verb::Services => "services",
            Verb::Listen => "listen",
            Verb::Unlisten => "unlisten",
            Verb::Job => "job",
            Verb::Print => "print",
            Verb::Fail => "fail",
        }
    }
}

fn verb_named(word: &str) -> Option<Verb> {
    VERBS.iter().copied().find(|verb| verb.name() == word)
}

/// A command with two numbers at most and no text.
fn by_numbers(verb: Verb, first: u32, second: u32) -> Option<Command> {
    let bundle = BundleId(first);
    let service = ServiceId(u64::from(first));
    let transient = second == 1;
    match verb {
        Verb::Unregister => Some(Command::Unregister { service }),
        Verb::Get => Some(Command::Get { service }),
        Verb::Unget => Some(Command::Unget { service }),
        Verb::Start => Some(Command::Start {
            target: Target::Id(bundle),
            transient,
        }),
        Verb::Stop => Some(Command::Stop {
            target: Target::Id(bundle),
            transient,
        }),
        Verb::Uninstall => Some(Command::Uninstall { bundle }),
        Verb::Resolve => Some(Command::Resolve { bundle }),
        Verb::Wires => Some(Command::Wires { bundle }),
        Verb::Level => Some(Command::Level {
            level: level(first),
        }),
        Verb::BundleLevel => Some(Command::BundleLevel {
            bundle,
            level: level(second),
        }),
        Verb::Bundles => Some(Command::Bundles),
        Verb::Services => Some(Command::Services),
        _ => None,
    }
}

/// A command with a number at most, and a text.
fn by_text(verb: Verb, bundle: BundleId, text: Text) -> Option<Command> {
    match verb {
        Verb::Find => Some(Command::Find {
            class: text,
            filter: None,
        }),
        Verb::FindAll => Some(Command::FindAll {
            class: text,
            filter: None,
        }),
        Verb::Load => Some(Command::Load {
            bundle,
            class: text,
        }),
        Verb::Install => Some(Command::Install { location: text }),
        Verb::Update => Some(Command::Update {
            bundle,
            location: text,
        }),
        Verb::Listen => Some(Command::Listen {
            name: text,
            kind: Kind::All,
            filter: None,
        }),
        Verb::Unlisten => Some(Command::Unlisten { name: text }),
        Verb::Job => Some(Command::Job { name: text }),
        Verb::Print => Some(Command::Print { text }),
        Verb::Fail => Some(Command::Fail { text }),
        _ => None,
    }
}

/// A service without classes and properties.
fn register(alloc: Global, object: Text) -> Result<Command, AllocError> {
    Ok(Command::Register {
        classes: List::new(alloc)?,
        object,
        properties: List::new(alloc)?,
    })
}

/// A command of a verb, from the line that it begins.
fn command_by(alloc: Global, verb: Verb, line: &str) -> Result<Option<Command>, AllocError> {
    let first = number_at(line, 1);
    match verb {
        Verb::Register => Ok(Some(register(alloc, last_text(alloc, line)?)?)),
        Verb::Modify => Ok(Some(Command::Modify {
            service: ServiceId(u64::from(first)),
            properties: List::new(alloc)?,
        })),
        Verb::Refresh => Ok(Some(Command::Refresh {
            bundles: bundles(alloc, line)?,
        })),
        _ => match by_numbers(verb, first, number_at(line, 2)) {
            Some(command) => Ok(Some(command)),
            None => Ok(by_text(verb, BundleId(first), last_text(alloc, line)?)),
        },
    }
}

/// The command that a line says.
pub fn command_of(alloc: Global, line: &str) -> Result<Option<Command>, AllocError> {
    let (word, _) = line.split_once(' ').unwrap_or((line, ""));
    match verb_named(word) {
        Some(verb) => command_by(alloc, verb, line),
        None => Ok(None),
    }
}
