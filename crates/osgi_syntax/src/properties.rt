//! The words that are properties: `key=value` or `key:Type=value`.

ghost use Rattle.std.specs.Prelude.{◌≡◌, List, IfOk, IfSome, Some};
ghost use Rattle.std.specs.List.{position};
ghost use Rattle.osgi_model.specs.declared.value.Attribute.{Attribute};
ghost use Rattle.osgi_syntax.specs.Properties.{AreProperties};
ghost use Rattle.osgi_syntax.specs.PropertyReader.{attribute_of, ends_key, is_equals, properties_of, property_of, typed_of};
ghost use Rattle.osgi_syntax.specs.Splitting.{texts_of};

use crate::values::{value, value_text};
use osgi_base::{List, Text};
use osgi_model::{Attribute, Attributes};
use std::alloc::{AllocError, Global};

fn key_end(word: &[u8]) -> Option<usize>
    ensures place { result ≡ position ends_key word.now }
{
    word.iter()
        .position(|b| matches!(*b, b' ' | b':' | b'=' | b'"'))
}

fn type_end(text: &[u8]) -> Option<usize>
    ensures place { result ≡ position is_equals text.now }
{
    text.iter().position(|b| *b == b'=')
}

/// The property of a key and a type whose value is spelled like this; none where it is no value of the type.
fn attribute(
    alloc: Global,
    key: &[u8],
    kind: &[u8],
    spelled: &[u8],
) -> Result<Option<Attribute>, AllocError>
    ensures attribute { IfOk result (λ attribute. attribute ≡ attribute_of key.now kind.now spelled.now) }
{
    let Some(text) = value_text(alloc, spelled)? else {
        return Ok(None);
    };
    let Some(value) = value(alloc, kind, text.bytes())? else {
        return Ok(None);
    };
    Ok(Some(Attribute {
        name: Text::of(alloc, key)?,
        value,
    }))
}

/// The property of a key, from what follows the `:` between key and type.
fn typed_attribute(alloc: Global, key: &[u8], rest: &[u8]) -> Result<Option<Attribute>, AllocError>
    ensures attribute { IfOk result (λ attribute. attribute ≡ typed_of key.now rest.now) }
{
    let Some(end) = type_end(rest) else {
        return Ok(None);
    };
    let (kind, _) = rest.split_at(end);
    let (_, spelled) = rest.split_at(end + 1);
    attribute(alloc, key, kind, spelled)
}

/// A word as a property; none where it is none.
fn property(alloc: Global, word: &[u8]) -> Result<Option<Attribute>, AllocError>
    ensures property { IfOk result (λ property. property ≡ property_of word.now) }
{
    let Some(end) = key_end(word) else {
        return Ok(None);
    };
    let (key, rest) = word.split_at(end);
    if key.is_empty() {
        return Ok(None);
    }
    match rest {
        [b'=', spelled @ ..] => attribute(alloc, key, b"String", spelled),
        [b':', rest @ ..] => typed_attribute(alloc, key, rest),
        _ => Ok(None),
    }
}

/// The words as properties, in order; none where one of them is none.
pub fn properties(alloc: Global, words: &[&[u8]]) -> Result<Option<Attributes>, AllocError>
    ensures properties { IfOk result (λ properties. properties ≡ properties_of (texts_of words.now)) }
    ensures reads { IfOk result (λ read. IfSome read (AreProperties (texts_of words.now))) }
    ensures only { (properties : List Attribute) → AreProperties (texts_of words.now) properties → IfOk result (λ read. read ≡ Some properties) }
{
    attributes(alloc, words)
}

fn attributes(alloc: Global, words: &[&[u8]]) -> Result<Option<Attributes>, AllocError>
    ensures properties { IfOk result (λ properties. properties ≡ properties_of (texts_of words.now)) }
{
    let mut properties = List::with_capacity(alloc, words.len())?;
    for word in words {
        let Some(property) = property(alloc, word)? else {
            return Ok(None);
        };
        properties.push(property)?;
    }
    Ok(Some(properties))
}
