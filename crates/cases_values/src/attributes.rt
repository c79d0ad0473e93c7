//! Attributes as lines write them, and as answers show them.

use crate::values::{put_value, value_of};
use cases_text::{bytes_of, check_copy, put, put_text, split_at};
use osgi_base::{List, Text};
use osgi_model::{Attribute, Attributes, Value};
use std::alloc::{AllocError, Global};

/// The attribute of this name.
fn named(alloc: Global, name: &str, value: Value) -> Result<Attribute, AllocError> {
    let name = Text::from_vec(alloc, bytes_of(alloc, name)?)?;
    Ok(Attribute { name, value })
}

/// Adds the attribute that is written `NAME:TYPE=TEXT`, and answers whether it is one.
fn read_one(alloc: Global, attributes: &mut Attributes, text: &str) -> Result<bool, AllocError> {
    let (name, typed) = split_at(text, ":");
    let (kind, text) = split_at(typed, "=");
    match value_of(alloc, kind, text)? {
        Some(value) => {
            attributes.push(named(alloc, name, value)?)?;
            Ok(true)
        }
        None => Ok(false),
    }
}

/// Adds the attributes that are written with `;` between, up to one that is none, and answers whether all are.
fn read_all(alloc: Global, attributes: &mut Attributes, text: &str) -> Result<bool, AllocError> {
    for part in text.split(';') {
        if !read_one(alloc, attributes, part)? {
            return Ok(false);
        }
    }
    Ok(true)
}

/// The attributes that are written with `;` between; none where one of them is none.
pub fn attributes_of(alloc: Global, text: &str) -> Result<Option<Attributes>, AllocError> {
    let mut attributes = List::new(alloc)?;
    if read_all(alloc, &mut attributes, text)? {
        Ok(Some(attributes))
    } else {
        Ok(None)
    }
}

fn put_attribute(out: &mut String, attribute: &Attribute, alloc: Global) -> Result<(), AllocError> {
    put_text(out, &attribute.name)?;
    put(out, "=")?;
    put_value(out, &attribute.value, alloc)
}

/// Adds attributes, name by name.
fn put_each(alloc: Global, out: &mut String, attributes: &[Attribute]) -> Result<(), AllocError> {
    let mut separator = "";
    for attribute in attributes {
        put(out, separator)?;
        put_attribute(out, attribute, alloc)?;
        separator = ", ";
    }
    Ok(())
}

/// Adds attributes, and whether their copy differs.
pub fn put_attributes(
    alloc: Global,
    out: &mut String,
    attributes: &Attributes,
) -> Result<(), AllocError> {
    put_each(alloc, out, attributes.items())?;
    check_copy(alloc, out, attributes)
}

/// Takes the attributes of a line, and adds what they are.
pub fn take(
    alloc: Global,
    out: &mut String,
    attributes: &mut Attributes,
    text: &str,
) -> Result<(), AllocError> {
    match attributes_of(alloc, text)? {
        Some(read) => {
            *attributes = read;
            put_attributes(alloc, out, attributes)
        }
        None => put(out, "no attributes"),
    }
}
