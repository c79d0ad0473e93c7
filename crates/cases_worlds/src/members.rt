//! Capabilities and requirements of a row.

use crate::attributes::{add_attributes, add_version, mandatory, names, range};
use crate::numbers::text_of;
use osgi_base::{List, Shared, Text};
use osgi_filter::parse;
use osgi_model::{Attributes, Filter};
use osgi_world::{Capability, Requirement, SharedRange};
use std::alloc::{AllocError, Global};

/// The namespace of what a word is for; other names are namespaces of their own.
fn namespace<'a>(word: &str, name: &'a str) -> &'a str {
    if word == "exports" || word == "imports" || word == "dynamic" {
        "osgi.wiring.package"
    } else if word == "bundle" || word == "requires" {
        "osgi.wiring.bundle"
    } else {
        name
    }
}

fn subject(alloc: Global, word: &str, name: &str) -> Result<(Text, Text), AllocError> {
    let namespace = text_of(alloc, namespace(word, name))?;
    Ok((namespace, text_of(alloc, name)?))
}

/// What a text has before a mark and after it.
fn cut_at<'a>(text: &'a str, mark: char) -> (&'a str, &'a str) {
    text.split_once(mark).unwrap_or((text, ""))
}

/// A version, and attributes before a closing bracket.
fn attributes(alloc: Global, version: &str, others: &str) -> Result<Attributes, AllocError> {
    let mut attributes = List::from(Vec::new(alloc));
    add_version(alloc, &mut attributes, version)?;
    add_attributes(alloc, &mut attributes, others)?;
    Ok(attributes)
}

/// The capability that is written `NAME:VERSION{NAME=TEXT,!NAME=TEXT}(USED,USED)` after its word. All after the name may be
/// missing.
pub fn capability(alloc: Global, word: &str, text: &str) -> Result<Capability, AllocError> {
    let (text, uses) = cut_at(text, '(');
    let (text, others) = cut_at(text, '{');
    let (name, version) = cut_at(text, ':');
    let (namespace, name) = subject(alloc, word, name)?;
    let attributes = attributes(alloc, version, others)?;
    let mandatory = mandatory(alloc, others)?;
    Ok(Capability {
        namespace,
        name,
        attributes: Shared::new(alloc, attributes)?,
        uses: Shared::new(alloc, names(alloc, uses)?)?,
        mandatory: Shared::new(alloc, mandatory)?,
    })
}

/// The symbolic name of an exporter that is written `NAME:RANGE`, and its versions; none where the text is empty.
fn exporter(alloc: Global, text: &str) -> Result<(Option<Text>, SharedRange), AllocError> {
    let (name, span) = cut_at(text, ':');
    let range = range(alloc, span)?;
    if name.is_empty() {
        return Ok((None, range));
    }
    Ok((Some(text_of(alloc, name)?), range))
}

/// The attributes and the filter that a requirement asks for.
fn conditions(
    alloc: Global,
    others: &str,
    filter: &str,
) -> Result<(Attributes, Option<Shared<Filter>>), AllocError> {
    let equal = attributes(alloc, "", others)?;
    let filter = match parse(alloc, filter.as_bytes())? {
        Ok(filter) => Some(Shared::new(alloc, filter)?),
        Err(_) => None,
    };
    Ok((equal, filter))
}

/// The requirement that is written `NAME:RANGE@EXPORTER:RANGE{NAME=TEXT}/FLAGS?FILTER` after its word. All after the name may
/// be missing.
pub fn requirement(alloc: Global, word: &str, text: &str) -> Result<Requirement, AllocError> {
    let (text, filter) = cut_at(text, '?');
    let (text, flags) = cut_at(text, '/');
    let (text, others) = cut_at(text, '{');
    let (text, from) = cut_at(text, '@');
    let (name, span) = cut_at(text, ':');
    let (namespace, name) = subject(alloc, word, name)?;
    let (from_name, from_range) = exporter(alloc, from)?;
    let (equal, filter) = conditions(alloc, others, filter)?;
    Ok(Requirement {
        namespace,
        name,
        range: range(alloc, span)?,
        from_name,
        from_range,
        equal: Shared::new(alloc, equal)?,
        filter,
        optional: flags.contains('o'),
        multiple: flags.contains('m'),
        reexport: flags.contains('r'),
        effective: !flags.contains('i'),
    })
}
