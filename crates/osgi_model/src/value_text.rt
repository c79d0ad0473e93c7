//! Values, read from text by their types.

ghost use Rattle.std.specs.Prelude.{◌≡◌, ◌↔◌, ℤ, IfOk, IfSome, Some};
ghost use Rattle.osgi_model.specs.Longs.{IsLong};
ghost use Rattle.osgi_model.specs.Values.{IsOfType};
ghost use Rattle.osgi_model.specs.computed.ValueReader.{scalar_of, scalars_of, value_of};
ghost use Rattle.osgi_model.specs.computed.VersionReader.{version_of};
ghost use Rattle.osgi_model.specs.declared.value.Value.{Value};

use crate::elements::elements;
use crate::long::long;
use crate::value::Value;
use crate::value_type::{Scalar, ValueType};
use osgi_base::{List, Text};
use osgi_version::Version;
use std::alloc::{AllocError, Global};

/// The number of 64 bits that a text writes: decimal digits with a `-` or `+` before them or none, and white space round
/// them or not. None where it writes none.
pub fn read_long(text: &[u8]) -> Option<i64>
    ensures reads { (number : ℤ) → (result ≡ Some number) ↔ IsLong text.now number }
{
    long(text)
}

/// What a text stands for as a value of the type; none where it is no value of it.
///
/// A String is the text itself. Round a Version or a Long white space is dropped. The elements of a list are separated by
/// `,`, and in them `\,` and `\\` stand for `,` and `\`: the empty text is a list of one empty element.
pub fn read_value(alloc: Global, kind: ValueType, text: &[u8]) -> Result<Option<Value>, AllocError>
    ensures reads { IfOk result (λ read. IfSome read (IsOfType kind text.now)) }
    ensures only { (value : Value) → IsOfType kind text.now value → IfOk result (λ read. read ≡ Some value) }
{
    value(alloc, kind, text)
}

fn value(alloc: Global, kind: ValueType, text: &[u8]) -> Result<Option<Value>, AllocError>
    ensures value { IfOk result (λ value. value ≡ value_of kind text.now) }
{
    match kind {
        ValueType::One(scalar) => scalar_value(alloc, scalar, text),
        ValueType::List(scalar) => {
            let texts = elements(alloc, text)?;
            Ok(scalar_values(alloc, scalar, texts.items())?.map(Value::List))
        }
    }
}

fn scalar_value(alloc: Global, scalar: Scalar, text: &[u8]) -> Result<Option<Value>, AllocError>
    ensures value { IfOk result (λ value. value ≡ scalar_of scalar text.now) }
{
    match scalar {
        Scalar::String => Ok(Some(Value::Text(Text::of(alloc, text)?))),
        Scalar::Version => Ok(version(alloc, text)?.map(Value::Version)),
        Scalar::Long => Ok(long(text).map(Value::Long)),
    }
}

/// The texts as values of a type, in order; none where one of them is none.
fn scalar_values(
    alloc: Global,
    scalar: Scalar,
    texts: &[Text],
) -> Result<Option<List<Value>>, AllocError>
    ensures values { IfOk result (λ values. values ≡ scalars_of scalar texts.now) }
{
    let mut values = List::with_capacity(alloc, texts.len())?;
    for text in texts {
        let Some(value) = scalar_value(alloc, scalar, text.bytes())? else {
            return Ok(None);
        };
        values.push(value)?;
    }
    Ok(Some(values))
}

fn version(alloc: Global, text: &[u8]) -> Result<Option<Version>, AllocError>
    ensures version { IfOk result (λ version. version ≡ version_of text.now) }
{
    Ok(Version::parse(alloc, text)?.ok())
}
