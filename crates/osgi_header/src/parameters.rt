//! The parts of a clause: a path, a directive or an attribute.

ghost use Rattle.std.specs.Prelude.{◌≡◌, IfOk};
ghost use Rattle.std.specs.List.{list_all, position};
ghost use Rattle.osgi_header.specs.Clauses.{is_unquoted_byte, is_parameter_name_byte, is_path_byte};
ghost use Rattle.osgi_header.specs.computed.ClauseReader.{attribute_of, directive_of, ends_kind, ends_name, parameter_name, parameter_of, part_of, path_of, typed_of, parameter_value};

use crate::blanks::trim;
use crate::clause::{Pair, Typed};
use osgi_base::Text;
use osgi_base::quoted::quoted;
use std::alloc::{AllocError, Global};

/// A part of a clause.
#[derive(Drop)]
pub enum ClausePart {
    Path(Text),
    Directive(Pair),
    Attribute(Typed),
}

fn has_path_bytes(text: &[u8]) -> bool
    ensures all { result ≡ list_all is_path_byte text.now }
{
    text.iter()
        .all(|b| !matches!(*b, b',' | b';' | b':' | b'=' | b'"'))
}

fn has_name_bytes(text: &[u8]) -> bool
    ensures all { result ≡ list_all is_parameter_name_byte text.now }
{
    text.iter().all(|b| matches!(*b, b'a'..=b'z' | b'A'..=b'Z' | b'0'..=b'9' | b'_' | b'-' | b'.'))
}

fn has_bare_bytes(text: &[u8]) -> bool
    ensures all { result ≡ list_all is_unquoted_byte text.now }
{
    text.iter().all(|b| !matches!(*b, b',' | b';' | b'"'))
}

/// A path or a type; none where the text is none.
fn path(alloc: Global, text: &[u8]) -> Result<Option<Text>, AllocError>
    ensures path { IfOk result (λ path. path ≡ path_of text.now) }
{
    let path = trim(text);
    if path.is_empty() || !has_path_bytes(path) {
        return Ok(None);
    }
    Ok(Some(Text::of(alloc, path)?))
}

/// The name of a parameter; none where the text is none.
fn name(alloc: Global, text: &[u8]) -> Result<Option<Text>, AllocError>
    ensures name { IfOk result (λ name. name ≡ parameter_name text.now) }
{
    let name = trim(text);
    if name.is_empty() || !has_name_bytes(name) {
        return Ok(None);
    }
    Ok(Some(Text::of(alloc, name)?))
}

/// The value of a parameter, between quotes or as it stands; none where the text is none.
fn value(alloc: Global, text: &[u8]) -> Result<Option<Text>, AllocError>
    ensures value { IfOk result (λ value. value ≡ parameter_value text.now) }
{
    let value = trim(text);
    if let [b'"', ..] = value {
        return quoted(alloc, value);
    }
    if !has_bare_bytes(value) {
        return Ok(None);
    }
    Ok(Some(Text::of(alloc, value)?))
}

fn directive(alloc: Global, name: Text, spelled: &[u8]) -> Result<Option<ClausePart>, AllocError>
    ensures directive { IfOk result (λ part. part ≡ directive_of name spelled.now) }
{
    match value(alloc, spelled)? {
        Some(value) => Ok(Some(ClausePart::Directive(Pair { name, value }))),
        None => Ok(None),
    }
}

fn attribute(
    alloc: Global,
    name: Text,
    kind: Text,
    spelled: &[u8],
) -> Result<Option<ClausePart>, AllocError>
    ensures attribute { IfOk result (λ part. part ≡ attribute_of name kind spelled.now) }
{
    match value(alloc, spelled)? {
        Some(value) => Ok(Some(ClausePart::Attribute(Typed { name, kind, value }))),
        None => Ok(None),
    }
}

fn kind_end(text: &[u8]) -> Option<usize>
    ensures place { result ≡ position ends_kind text.now }
{
    text.iter().position(|b| *b == b'=')
}

/// An attribute with a type, from what follows the `:` between name and type.
fn typed_attribute(alloc: Global, name: Text, rest: &[u8]) -> Result<Option<ClausePart>, AllocError>
    ensures attribute { IfOk result (λ part. part ≡ typed_of name rest.now) }
{
    let Some(end) = kind_end(rest) else {
        return Ok(None);
    };
    let (prefix, _) = rest.split_at(end);
    let (_, spelled) = rest.split_at(end + 1);
    let Some(kind) = path(alloc, prefix)? else {
        return Ok(None);
    };
    attribute(alloc, name, kind, spelled)
}

/// A parameter by its name and what follows that.
fn parameter(alloc: Global, name: Text, rest: &[u8]) -> Result<Option<ClausePart>, AllocError>
    ensures part { IfOk result (λ part. part ≡ parameter_of name rest.now) }
{
    match rest {
        [b'=', spelled @ ..] => attribute(alloc, name, Text::of(alloc, b"String")?, spelled),
        [b':', b'=', spelled @ ..] => directive(alloc, name, spelled),
        [b':', rest @ ..] => typed_attribute(alloc, name, rest),
        _ => Ok(None),
    }
}

fn name_end(text: &[u8]) -> Option<usize>
    ensures place { result ≡ position ends_name text.now }
{
    text.iter().position(|b| matches!(*b, b':' | b'='))
}

/// A part of a clause: a path, or a parameter, which has a `:` or `=` after its name. None where the text is none.
pub fn read_part(alloc: Global, text: &[u8]) -> Result<Option<ClausePart>, AllocError>
    ensures part { IfOk result (λ part. part ≡ part_of text.now) }
{
    let Some(end) = name_end(text) else {
        return Ok(path(alloc, text)?.map(ClausePart::Path));
    };
    let (prefix, rest) = text.split_at(end);
    match name(alloc, prefix)? {
        Some(name) => parameter(alloc, name, rest),
        None => Ok(None),
    }
}
