//! Statements of scripts as answers show them.

use crate::attributes::put_attributes;
use cases_text::{put, put_debug, put_quoted, put_text};
use osgi_base::Text;
use osgi_filter::print;
use osgi_model::{Attributes, Filter};
use osgi_ops::{Kind, Scope};
use osgi_script::Statement;
use std::alloc::{AllocError, Global};

/// Adds a statement's first word and a name after it.
pub fn put_named(out: &mut String, word: &str, name: &Text) -> Result<(), AllocError> {
    put(out, word)?;
    put(out, " ")?;
    put_text(out, name)
}

fn put_said(out: &mut String, word: &str, text: &Text) -> Result<(), AllocError> {
    put(out, word)?;
    put(out, " ")?;
    put_quoted(out, text.bytes())
}

fn put_classes(out: &mut String, classes: &[Text]) -> Result<(), AllocError> {
    let mut separator = " ";
    for class in classes {
        put(out, separator)?;
        put_text(out, class)?;
        separator = ",";
    }
    Ok(())
}

fn put_properties(
    alloc: Global,
    out: &mut String,
    properties: &Attributes,
) -> Result<(), AllocError> {
    put(out, " {")?;
    put_attributes(alloc, out, properties)?;
    put(out, "}")
}

fn put_printed(alloc: Global, out: &mut String, filter: &Filter) -> Result<(), AllocError> {
    put_text(out, &print(alloc, filter)?)
}

fn put_filter(alloc: Global, out: &mut String, filter: &Option<Filter>) -> Result<(), AllocError> {
    match filter {
        Some(filter) => {
            put(out, " ")?;
            put_printed(alloc, out, filter)
        }
        None => Ok(()),
    }
}

fn put_register(
    alloc: Global,
    out: &mut String,
    var: &Text,
    classes: &[Text],
    object: &Text,
    properties: &Attributes,
) -> Result<(), AllocError> {
    put_named(out, "register", var)?;
    put_classes(out, classes)?;
    put(out, " ")?;
    put_quoted(out, object.bytes())?;
    put_properties(alloc, out, properties)
}

fn put_factory(
    alloc: Global,
    out: &mut String,
    var: &Text,
    classes: &[Text],
    scope: Scope,
    name: &Text,
    properties: &Attributes,
) -> Result<(), AllocError> {
    put_named(out, "factory", var)?;
    put_classes(out, classes)?;
    put(
        out,
        match scope {
            Scope::Singleton => " singleton ",
            Scope::Bundle => " bundle ",
            Scope::Prototype => " prototype ",
        },
    )?;
    put_text(out, name)?;
    put_properties(alloc, out, properties)
}

fn put_modify(
    alloc: Global,
    out: &mut String,
    var: &Text,
    properties: &Attributes,
) -> Result<(), AllocError> {
    put_named(out, "modify", var)?;
    put_properties(alloc, out, properties)
}

fn put_find(
    alloc: Global,
    out: &mut String,
    var: &Text,
    class: &Text,
    filter: &Option<Filter>,
) -> Result<(), AllocError> {
    put_named(out, "find", var)?;
    put(out, " ")?;
    put_text(out, class)?;
    put_filter(alloc, out, filter)
}

fn put_listen(
    alloc: Global,
    out: &mut String,
    name: &Text,
    kind: Kind,
    filter: &Option<Filter>,
) -> Result<(), AllocError> {
    put_named(out, "listen", name)?;
    put(out, " ")?;
    put_debug(out, &kind)?;
    put_filter(alloc, out, filter)
}

/// Adds a statement.
pub fn put_statement(
    alloc: Global,
    out: &mut String,
    statement: &Statement,
) -> Result<(), AllocError> {
    match statement {
        Statement::Register {
            var,
            classes,
            object,
            properties,
        } => put_register(alloc, out, var, classes.items(), object, properties),
        Statement::Modify { var, properties } => put_modify(alloc, out, var, properties),
        Statement::Unregister { var } => put_named(out, "unregister", var),
        Statement::Find { var, class, filter } => put_find(alloc, out, var, class, filter),
        Statement::Get { var } => put_named(out, "get", var),
        Statement::Unget { var } => put_named(out, "unget", var),
        Statement::GetOwn { var } => put_named(out, "getown", var),
        Statement::Factory {
            var,
            classes,
            scope,
            name,
            properties,
        } => put_factory(alloc, out, var, classes.items(), *scope, name, properties),
        Statement::Give { text } => put_said(out, "give", text),
        Statement::Start { name } => put_named(out, "start", name),
        Statement::Stop { name } => put_named(out, "stop", name),
        Statement::Load { class } => put_named(out, "load", class),
        Statement::Listen { name, kind, filter } => put_listen(alloc, out, name, *kind, filter),
        Statement::Unlisten { name } => put_named(out, "unlisten", name),
        Statement::Job { name } => put_named(out, "job", name),
        Statement::Print { text } => put_said(out, "print", text),
        Statement::Fail { text } => put_said(out, "fail", text),
    }
}
