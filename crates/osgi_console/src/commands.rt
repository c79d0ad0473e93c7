//! The commands, read from lines: the first word says how the rest is read.

ghost use Rattle.std.specs.Prelude.{◌≡◌, IfOk};
ghost use Rattle.std.specs.Option.{option_map};
ghost use Rattle.osgi_console.specs.computed.ArgumentReader.{location_of};
ghost use Rattle.osgi_console.specs.computed.LineReader.{bundle_level_of, command_by, command_of, load_of, modify_of, refresh_of, register_of, start_of, stop_of, update_of, verb_name, verb_of};
ghost use Rattle.osgi_syntax.specs.Splitting.{words_of};

use crate::arguments::{
    aim_in, bundle_ids, class_and_filter, has_no_word, location, only_bundle, only_id, only_level,
};
use osgi_base::Text;
use osgi_base::quoted::quoted;
use osgi_ops::Target;
use osgi_session::Command;
use osgi_syntax::properties::properties;
use osgi_syntax::{bundle_id, class, classes, id, only_word, split_word, split_words};
use std::alloc::{AllocError, Global};

/// The commands, by their first words.
#[derive(Clone, Copy)]
enum Verb {
    Register,
    Modify,
    Unregister,
    Find,
    FindAll,
    Get,
    Unget,
    Start,
    Stop,
    Load,
    Install,
    Update,
    Uninstall,
    Resolve,
    Refresh,
    Wires,
    Level,
    BundleLevel,
    Bundles,
    Services,
}

const VERBS: [Verb; 20] = [
    Verb::Register,
    Verb::Modify,
    Verb::Unregister,
    Verb::Find,
    Verb::FindAll,
    Verb::Get,
    Verb::Unget,
    Verb::Start,
    Verb::Stop,
    Verb::Load,
    Verb::Install,
    Verb::Update,
    Verb::Uninstall,
    Verb::Resolve,
    Verb::Refresh,
    Verb::Wires,
    Verb::Level,
    Verb::BundleLevel,
    Verb::Bundles,
    Verb::Services,
];

impl Verb {
    fn name(self) -> &'static [u8]
        ensures name { result.now ≡ verb_name self }
    {
        match self {
            Verb::Register => b"register",
            Verb::Modify => b"modify",
            Verb::Unregister => b"unregister",
            Verb::Find => b"find",
            Verb::FindAll => b"findall",
            Verb::Get => b"get",
            Verb::Unget => b"unget",
            Verb::Start => b"start",
            Verb::Stop => b"stop",
            Verb::Load => b"load",
            Verb::Install => b"install",
            Verb::Update => b"update",
            Verb::Uninstall => b"uninstall",
            Verb::Resolve => b"resolve",
            Verb::Refresh => b"refresh",
            Verb::Wires => b"wires",
            Verb::Level => b"level",
            Verb::BundleLevel => b"blevel",
            Verb::Bundles => b"bundles",
            Verb::Services => b"services",
        }
    }
}

fn verb_named(word: &[u8]) -> Option<Verb>
    ensures verb { result ≡ verb_of word.now }
{
    VERBS.iter().copied().find(|verb| verb.name() == word)
}

/// `register CLASS[,CLASS].. "TEXT" [PROP]..`, from what follows its first word.
fn register(alloc: Global, text: &[u8]) -> Result<Option<Command>, AllocError>
    ensures command { IfOk result (λ command. command ≡ register_of (words_of text.now)) }
{
    let Some((names, rest)) = split_word(text) else {
        return Ok(None);
    };
    let Some((object, rest)) = split_word(rest) else {
        return Ok(None);
    };
    let Some(classes) = classes(alloc, names)? else {
        return Ok(None);
    };
    let Some(object) = quoted(alloc, object)? else {
        return Ok(None);
    };
    let Some(properties) = properties(alloc, split_words(alloc, rest)?.as_slice())? else {
        return Ok(None);
    };
    Ok(Some(Command::Register {
        classes,
        object,
        properties,
    }))
}

/// `modify ID [PROP]..`, from what follows its first word.
fn modify(alloc: Global, text: &[u8]) -> Result<Option<Command>, AllocError>
    ensures command { IfOk result (λ command. command ≡ modify_of (words_of text.now)) }
{
    let Some((service, rest)) = split_word(text) else {
        return Ok(None);
    };
    let Some(service) = id(service) else {
        return Ok(None);
    };
    let Some(properties) = properties(alloc, split_words(alloc, rest)?.as_slice())? else {
        return Ok(None);
    };
    Ok(Some(Command::Modify {
        service,
        properties,
    }))
}

/// `start [-t] ID`, from what follows its first word.
fn start(text: &[u8]) -> Option<Command>
    ensures command { result ≡ start_of (words_of text.now) }
{
    let aim = aim_in(text)?;
    Some(Command::Start {
        target: Target::Id(aim.bundle),
        transient: aim.transient,
    })
}

/// `stop [-t] ID`, from what follows its first word.
fn stop(text: &[u8]) -> Option<Command>
    ensures command { result ≡ stop_of (words_of text.now) }
{
    let aim = aim_in(text)?;
    Some(Command::Stop {
        target: Target::Id(aim.bundle),
        transient: aim.transient,
    })
}

/// `load ID CLASS`, from what follows its first word.
fn load(alloc: Global, text: &[u8]) -> Result<Option<Command>, AllocError>
    ensures command { IfOk result (λ command. command ≡ load_of (words_of text.now)) }
{
    let Some((bundle, rest)) = split_word(text) else {
        return Ok(None);
    };
    let Some(bundle) = bundle_id(bundle) else {
        return Ok(None);
    };
    let Some(name) = only_word(rest) else {
        return Ok(None);
    };
    Ok(class(alloc, name)?.map(|class| Command::Load { bundle, class }))
}

/// `install LOCATION`, from what follows its first word.
fn install(alloc: Global, text: &[u8]) -> Result<Option<Command>, AllocError>
    ensures command { IfOk result (λ command.
        command ≡ option_map Command.Install (location_of text.now)) }
{
    let Some(location) = location(text) else {
        return Ok(None);
    };
    Ok(Some(Command::Install {
        location: Text::of(alloc, location)?,
    }))
}

/// `update ID LOCATION`, from what follows its first word.
fn update(alloc: Global, text: &[u8]) -> Result<Option<Command>, AllocError>
    ensures command { IfOk result (λ command. command ≡ update_of text.now) }
{
    let Some((bundle, rest)) = split_word(text) else {
        return Ok(None);
    };
    let Some(bundle) = bundle_id(bundle) else {
        return Ok(None);
    };
    let Some(location) = location(rest) else {
        return Ok(None);
    };
    Ok(Some(Command::Update {
        bundle,
        location: Text::of(alloc, location)?,
    }))
}

/// `refresh [ID]..`, from what follows its first word.
fn refresh(alloc: Global, text: &[u8]) -> Result<Option<Command>, AllocError>
    ensures command { IfOk result (λ command. command ≡ refresh_of (words_of text.now)) }
{
    let words = split_words(alloc, text)?;
    let bundles = bundle_ids(alloc, words.as_slice())?;
    Ok(bundles.map(|bundles| Command::Refresh { bundles }))
}

/// `blevel ID N`, from what follows its first word.
fn bundle_level(text: &[u8]) -> Option<Command>
    ensures command { result ≡ bundle_level_of (words_of text.now) }
{
    let (bundle, rest) = split_word(text)?;
    let bundle = bundle_id(bundle)?;
    let level = only_level(rest)?;
    Some(Command::BundleLevel { bundle, level })
}

fn command_by(alloc: Global, verb: Verb, text: &[u8]) -> Result<Option<Command>, AllocError>
    ensures command { IfOk result (λ command. command ≡ command_by verb text.now) }
{
    match verb {
        Verb::Register => register(alloc, text),
        Verb::Modify => modify(alloc, text),
        Verb::Unregister => Ok(only_id(text).map(|service| Command::Unregister { service })),
        Verb::Find => Ok(class_and_filter(alloc, text)?.map(|wanted| Command::Find {
            class: wanted.class,
            filter: wanted.filter,
        })),
        Verb::FindAll => Ok(class_and_filter(alloc, text)?.map(|wanted| Command::FindAll {
            class: wanted.class,
            filter: wanted.filter,
        })),
        Verb::Get => Ok(only_id(text).map(|service| Command::Get { service })),
        Verb::Unget => Ok(only_id(text).map(|service| Command::Unget { service })),
        Verb::Start => Ok(start(text)),
        Verb::Stop => Ok(stop(text)),
        Verb::Load => load(alloc, text),
        Verb::Install => install(alloc, text),
        Verb::Update => update(alloc, text),
        Verb::Uninstall => Ok(only_bundle(text).map(|bundle| Command::Uninstall { bundle })),
        Verb::Resolve => Ok(only_bundle(text).map(|bundle| Command::Resolve { bundle })),
        Verb::Refresh => refresh(alloc, text),
        Verb::Wires => Ok(only_bundle(text).map(|bundle| Command::Wires { bundle })),
        Verb::Level => Ok(only_level(text).map(|level| Command::Level { level })),
        Verb::BundleLevel => Ok(bundle_level(text)),
        Verb::Bundles => Ok(has_no_word(text).then(|| Command::Bundles)),
        Verb::Services => Ok(has_no_word(text).then(|| Command::Services)),
    }
}

/// The command that a line says; none where it says none.
pub fn command(alloc: Global, line: &[u8]) -> Result<Option<Command>, AllocError>
    ensures command { IfOk result (λ command. command ≡ command_of line.now) }
{
    let Some((name, remainder)) = split_word(line) else {
        return Ok(None);
    };
    match verb_named(name) {
        Some(verb) => command_by(alloc, verb, remainder),
        None => Ok(None),
    }
}
