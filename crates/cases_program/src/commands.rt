//! Commands and operations as an answer shows them.

use crate::escapes::{put_bytes, put_quoted};
use osgi_base::{BundleId, List, ServiceId, Text};
use osgi_filter::print;
use osgi_model::{Attribute, Attributes, Filter, Value};
use osgi_ops::{Op, Target};
use osgi_session::Command;
use std::alloc::{AllocError, Global};
use std::fmt::Write;

pub fn put_command(alloc: Global, out: &mut String, command: &Command) -> Result<(), AllocError> {
    match command {
        Command::Register {
            classes,
            object,
            properties,
        } => put_register(alloc, out, classes, object, properties),
        Command::Modify {
            service,
            properties,
        } => put_modify(alloc, out, *service, properties),
        Command::Unregister { service } => put_service(out, "unregister", *service),
        Command::Find { class, filter } => put_search(alloc, out, "find", class, filter),
        Command::FindAll { class, filter } => put_search(alloc, out, "findall", class, filter),
        Command::Get { service } => put_service(out, "get", *service),
        Command::Unget { service } => put_service(out, "unget", *service),
        Command::Start { target, transient } => put_life(out, "start", target, *transient),
        Command::Stop { target, transient } => put_life(out, "stop", target, *transient),
        Command::Install { location } => put_word(out, "install", location),
        Command::Resolve { bundle } => put_bundle(out, "resolve", *bundle),
        Command::Wires { bundle } => put_bundle(out, "wires", *bundle),
        Command::Bundles => out.push_str("bundles"),
        Command::Services => out.push_str("services"),
        _ => out.push_str("another"),
    }
}

/// The bundle that asks for an operation, where it names one.
fn asker(op: &Op) -> Option<BundleId> {
    match op {
        Op::Register { owner, .. } | Op::Modify { owner, .. } | Op::Unregister { owner, .. } => {
            Some(*owner)
        }
        Op::Find { asker, .. } | Op::FindAll { asker, .. } => Some(*asker),
        Op::Get { user, .. } | Op::Unget { user, .. } => Some(*user),
        Op::AddListener { owner, .. } | Op::QueueJob { owner, .. } => Some(*owner),
        _ => None,
    }
}

pub fn put_op(alloc: Global, out: &mut String, op: &Op) -> Result<(), AllocError> {
    if let Some(bundle) = asker(op) {
        write!(out, "by {} ", bundle.0)?;
    }
    match op {
        Op::Register {
            classes,
            object,
            properties,
            ..
        } => put_register(alloc, out, classes, object, properties),
        Op::Modify {
            service,
            properties,
            ..
        } => put_modify(alloc, out, *service, properties),
        Op::Unregister { service, .. } => put_service(out, "unregister", *service),
        Op::Find { class, filter, .. } => put_search(alloc, out, "find", class, filter),
        Op::FindAll { class, filter, .. } => put_search(alloc, out, "findall", class, filter),
        Op::Get { service, .. } => put_service(out, "get", *service),
        Op::Unget { service, .. } => put_service(out, "unget", *service),
        Op::WishStart { target, transient } => put_life(out, "wishstart", target, *transient),
        Op::BeginStop { target, transient } => put_life(out, "beginstop", target, *transient),
        Op::Install { location } => put_word(out, "install", location),
        Op::Resolve { bundle } => put_bundle(out, "resolve", *bundle),
        Op::ListWires { bundle } => put_bundle(out, "wires", *bundle),
        Op::ListBundles => out.push_str("bundles"),
        Op::ListServices => out.push_str("services"),
        Op::AddListener { name, .. } => put_word(out, "listen", name),
        Op::Hand => out.push_str("hand"),
        Op::EndHand { listener } => write!(out, "endhand {}", listener.0),
        Op::QueueJob { name, .. } => put_word(out, "job", name),
        Op::TakeJob => out.push_str("takejob"),
        Op::EndJob => out.push_str("endjob"),
        _ => out.push_str("another"),
    }
}

fn put_service(out: &mut String, word: &str, service: ServiceId) -> Result<(), AllocError> {
    write!(out, "{word} {}", service.0)
}

fn put_bundle(out: &mut String, word: &str, bundle: BundleId) -> Result<(), AllocError> {
    write!(out, "{word} {}", bundle.0)
}

/// Appends a start or a stop of a bundle.
fn put_life(
    out: &mut String,
    word: &str,
    target: &Target,
    transient: bool,
) -> Result<(), AllocError> {
    let option = if transient { " -t" } else { "" };
    write!(out, "{word}{option} ")?;
    match target {
        Target::Id(bundle) => write!(out, "{}", bundle.0),
        Target::Name(name) => put_bytes(out, name.bytes()),
    }
}

/// Appends a word, and a text after it.
fn put_word(out: &mut String, word: &str, text: &Text) -> Result<(), AllocError> {
    write!(out, "{word} ")?;
    put_bytes(out, text.bytes())
}

fn put_register(
    alloc: Global,
    out: &mut String,
    classes: &List<Text>,
    object: &Text,
    properties: &Attributes,
) -> Result<(), AllocError> {
    out.push_str("register ")?;
    put_classes(out, classes.items())?;
    out.push(' ')?;
    put_quoted(out, object.bytes())?;
    put_properties(alloc, out, properties.items())
}

fn put_modify(
    alloc: Global,
    out: &mut String,
    service: ServiceId,
    properties: &Attributes,
) -> Result<(), AllocError> {
    put_service(out, "modify", service)?;
    put_properties(alloc, out, properties.items())
}

/// Appends names of classes, separated by commas.
pub fn put_classes(out: &mut String, classes: &[Text]) -> Result<(), AllocError> {
    let mut separator = "";
    for class in classes {
        out.push_str(separator)?;
        put_bytes(out, class.bytes())?;
        separator = ",";
    }
    Ok(())
}

fn put_search(
    alloc: Global,
    out: &mut String,
    word: &str,
    class: &Text,
    filter: &Option<Filter>,
) -> Result<(), AllocError> {
    write!(out, "{word} ")?;
    put_bytes(out, class.bytes())?;
    let Some(filter) = filter else {
        return Ok(());
    };
    out.push(' ')?;
    put_bytes(out, print(alloc, filter)?.bytes())
}

fn put_property(alloc: Global, out: &mut String, property: &Attribute) -> Result<(), AllocError> {
    out.push(' ')?;
    put_bytes(out, property.name.bytes())?;
    out.push('=')?;
    put_value(alloc, out, &property.value)
}

fn put_properties(
    alloc: Global,
    out: &mut String,
    properties: &[Attribute],
) -> Result<(), AllocError> {
    for property in properties {
        put_property(alloc, out, property)?;
    }
    Ok(())
}

fn put_value(alloc: Global, out: &mut String, value: &Value) -> Result<(), AllocError> {
    match value {
        Value::List(values) => put_elements(alloc, out, values.items()),
        plain => put_plain(alloc, out, plain),
    }
}

fn put_elements(alloc: Global, out: &mut String, values: &[Value]) -> Result<(), AllocError> {
    let mut separator = "";
    out.push('[')?;
    for value in values {
        out.push_str(separator)?;
        put_plain(alloc, out, value)?;
        separator = ", ";
    }
    out.push(']')
}

/// Appends a value that is no list. No text stands for a list of lists.
fn put_plain(alloc: Global, out: &mut String, value: &Value) -> Result<(), AllocError> {
    match value {
        Value::Text(text) => put_quoted(out, text.bytes()),
        Value::Long(number) => write!(out, "Long {number}"),
        Value::Version(version) => {
            out.push_str("Version ")?;
            put_bytes(out, version.print(alloc)?.as_slice())
        }
        Value::List(_) => out.push_str("a list"),
    }
}
