//! Versions, attributes and lists of names of a row.

use crate::numbers::text_of;
use osgi_base::{List, Text};
use osgi_model::{Attribute, Attributes, Value};
use osgi_version::{Version, VersionRange};
use osgi_world::SharedRange;
use std::alloc::{AllocError, Global};

/// A version; 0.0.0 where it is none.
pub fn version(alloc: Global, text: &str) -> Result<Version, AllocError> {
    match Version::parse(alloc, text.as_bytes())? {
        Ok(version) => Ok(version),
        Err(_) => Ok(Version::numbered(0, 0, 0)),
    }
}

/// A range; at least 0.0.0 where it is none.
pub fn range(alloc: Global, text: &str) -> Result<SharedRange, AllocError> {
    match VersionRange::parse(alloc, text.as_bytes())? {
        Ok(range) => SharedRange::of(alloc, range),
        Err(_) => Ok(SharedRange::at_least_zero()),
    }
}

/// Adds the attribute `version`, unless the text is empty.
pub fn add_version(
    alloc: Global,
    attributes: &mut Attributes,
    text: &str,
) -> Result<(), AllocError> {
    if text.is_empty() {
        return Ok(());
    }
    let value = Value::Version(version(alloc, text)?);
    let name = text_of(alloc, "version")?;
    attributes.push(Attribute { name, value })
}

/// What a text has before a mark.
fn before<'a>(text: &'a str, mark: char) -> &'a str {
    text.split_once(mark).unwrap_or((text, "")).0
}

/// The attribute that is written `NAME=TEXT` or `!NAME=TEXT`.
fn attribute(alloc: Global, text: &str) -> Result<Attribute, AllocError> {
    let text = text.strip_prefix("!").unwrap_or(text);
    let (name, value) = text.split_once('=').unwrap_or((text, ""));
    let name = text_of(alloc, name)?;
    let value = Value::Text(text_of(alloc, value)?);
    Ok(Attribute { name, value })
}

/// Adds the attributes that are written `NAME=TEXT,NAME=TEXT}`.
pub fn add_attributes(
    alloc: Global,
    attributes: &mut Attributes,
    text: &str,
) -> Result<(), AllocError> {
    for part in before(text, '}').split(',') {
        if !part.is_empty() {
            attributes.push(attribute(alloc, part)?)?;
        }
    }
    Ok(())
}

/// The names of those attributes that stand after `!`.
pub fn mandatory(alloc: Global, text: &str) -> Result<List<Text>, AllocError> {
    let mut names = List::new(alloc)?;
    for part in before(text, '}').split(',') {
        if let Some(part) = part.strip_prefix("!") {
            names.push(text_of(alloc, before(part, '='))?)?;
        }
    }
    Ok(names)
}

/// Names with commas between, before a closing bracket.
pub fn names(alloc: Global, text: &str) -> Result<List<Text>, AllocError> {
    let mut names = List::new(alloc)?;
    for name in before(text, ')').split(',') {
        if !name.is_empty() {
            names.push(text_of(alloc, name)?)?;
        }
    }
    Ok(names)
}
