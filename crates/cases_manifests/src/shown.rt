//! Texts, values and attributes as answers show them.

use cases_text::push_bytes;
use osgi_base::Text;
use osgi_model::{Attribute, Value};
use std::alloc::{AllocError, Global};
use std::fmt::Write;

/// Adds texts in brackets.
pub fn push_texts(out: &mut String, texts: &[Text]) -> Result<(), AllocError> {
    out.push('[')?;
    for text in texts {
        push_bytes(out, text.bytes())?;
        out.push('|')?;
    }
    out.push(']')
}

/// Adds a value: a text in quotation marks, a number, a version as it prints, or a list in brackets.
#[cycle(push)]
fn push_value(out: &mut String, value: &Value, alloc: Global) -> Result<(), AllocError> {
    match value {
        Value::Text(text) => {
            out.push('"')?;
            push_bytes(out, text.bytes())?;
            out.push('"')
        }
        Value::Long(number) => write!(out, "{number}"),
        Value::Version(version) => push_bytes(out, version.print(alloc)?.as_slice()),
        Value::List(values) => push_values(out, values.items(), alloc),
    }
}

#[cycle(push)]
fn push_values(out: &mut String, values: &[Value], alloc: Global) -> Result<(), AllocError> {
    out.push('[')?;
    for value in values {
        push_value(out, value, alloc)?;
        out.push('|')?;
    }
    out.push(']')
}

/// Adds attributes in braces.
pub fn push_attributes(
    alloc: Global,
    out: &mut String,
    attributes: &[Attribute],
) -> Result<(), AllocError> {
    out.push('{')?;
    for attribute in attributes {
        push_bytes(out, attribute.name.bytes())?;
        out.push('=')?;
        push_value(out, &attribute.value, alloc)?;
        out.push('|')?;
    }
    out.push('}')
}
