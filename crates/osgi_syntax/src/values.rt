//! The values of properties, by their types.

ghost use Rattle.std.specs.Prelude.{◌≡◌, IfOk};
ghost use Rattle.std.specs.List.{list_all};
ghost use Rattle.osgi_syntax.specs.PropertyReader.{begins_with_quote, value_named, value_text_of};
ghost use Rattle.osgi_syntax.specs.Properties.{is_bare_byte};

use osgi_base::Text;
use osgi_base::quoted::quoted;
use osgi_model::{Value, ValueType, read_value};
use std::alloc::{AllocError, Global};

fn begins_with_quote(spelled: &[u8]) -> bool
    ensures quote { result ≡ begins_with_quote spelled.now }
{
    matches!(spelled, [b'"', ..])
}

fn has_bare_bytes(spelled: &[u8]) -> bool
    ensures all { result ≡ list_all is_bare_byte spelled.now }
{
    spelled.iter().all(|b| !matches!(*b, b' ' | b'"'))
}

/// The text of a value, which stands between quotes or as it is; none where it is spelled in neither way.
pub fn value_text(alloc: Global, spelled: &[u8]) -> Result<Option<Text>, AllocError>
    ensures text { IfOk result (λ text. text ≡ value_text_of spelled.now) }
{
    if begins_with_quote(spelled) {
        return quoted(alloc, spelled);
    }
    if !has_bare_bytes(spelled) {
        return Ok(None);
    }
    Ok(Some(Text::of(alloc, spelled)?))
}

/// What a text stands for as a value of the type of this name; none where no type has the name, or the text is none of its
/// values.
pub fn value(alloc: Global, name: &[u8], text: &[u8]) -> Result<Option<Value>, AllocError>
    ensures value { IfOk result (λ value. value ≡ value_named name.now text.now) }
{
    match ValueType::named(name) {
        Some(kind) => read_value(alloc, kind, text),
        None => Ok(None),
    }
}
