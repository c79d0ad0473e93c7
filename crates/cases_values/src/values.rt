//! Types of values, numbers, and values read by their types.

use cases_text::{
    bytes_of, check_copy, push_bytes, put, put_debug, put_quoted, put_shown, split_word,
};
use osgi_base::List;
use osgi_model::{Value, ValueType, read_long, read_value};
use osgi_version::Version;
use std::alloc::{AllocError, Global};

/// The type that a text names.
pub fn named(out: &mut String, text: &[u8]) -> Result<(), AllocError> {
    match ValueType::named(text) {
        Some(ValueType::One(scalar)) => put_debug(out, &scalar),
        Some(ValueType::List(scalar)) => {
            put(out, "list of ")?;
            put_debug(out, &scalar)
        }
        None => put(out, "none"),
    }
}

/// The number that a text writes.
pub fn long(out: &mut String, text: &[u8]) -> Result<(), AllocError> {
    match read_long(text) {
        Some(number) => put_shown(out, &number),
        None => put(out, "none"),
    }
}

/// What a text stands for as a value of the type. `[]` is the type of the empty list, which no text stands for.
pub fn value_of(alloc: Global, kind: &str, text: &str) -> Result<Option<Value>, AllocError> {
    if kind == "[]" {
        return Ok(Some(Value::List(List::new(alloc)?)));
    }
    match ValueType::named(kind.as_bytes()) {
        Some(kind) => read_value(alloc, kind, bytes_of(alloc, text)?.as_slice()),
        None => Ok(None),
    }
}

/// Adds a version as it prints.
pub fn put_version(alloc: Global, out: &mut String, version: &Version) -> Result<(), AllocError> {
    push_bytes(out, version.print(alloc)?.as_slice())
}

/// Adds a value: a text in quotation marks, a number, a version as it prints, or a list in brackets.
#[cycle(put)]
pub fn put_value(out: &mut String, value: &Value, alloc: Global) -> Result<(), AllocError> {
    match value {
        Value::Text(text) => put_quoted(out, text.bytes()),
        Value::Long(number) => put_shown(out, number),
        Value::Version(version) => put_version(alloc, out, version),
        Value::List(values) => put_values(out, values.items(), alloc),
    }
}

#[cycle(put)]
fn put_values(out: &mut String, values: &[Value], alloc: Global) -> Result<(), AllocError> {
    put(out, "[")?;
    for (at, value) in values.iter().enumerate() {
        put(out, if at > 0 { ", " } else { "" })?;
        put_value(out, value, alloc)?;
    }
    put(out, "]")
}

/// Adds a value, and whether its copy differs.
fn add_checked(alloc: Global, out: &mut String, value: &Value) -> Result<(), AllocError> {
    put_value(out, value, alloc)?;
    check_copy(alloc, out, value)
}

/// What a text stands for, before which its type stands and a space.
pub fn value(alloc: Global, out: &mut String, text: &str) -> Result<(), AllocError> {
    let (kind, text) = split_word(text);
    match value_of(alloc, kind, text)? {
        Some(value) => add_checked(alloc, out, &value),
        None => put(out, "none"),
    }
}
