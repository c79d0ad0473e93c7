//! The words that are names: of classes, of what a script names itself, and of bundles.

ghost use Rattle.std.specs.Prelude.{◌≡◌, ℕ, List, IfOk, IfSome, Some};
ghost use Rattle.std.specs.List.{list_all, slice_split};
ghost use Rattle.osgi_syntax.specs.Splitting.{texts_of};
ghost use Rattle.osgi_syntax.specs.WordReader.{bundle_name_of, class_of, classes_of, is_class, is_comma, is_dot, is_name, is_token, name_of};
ghost use Rattle.osgi_syntax.specs.Words.{AreClasses, begins_name, is_class_byte, is_name_byte, is_token_byte, IsBundleName, IsClass, IsName};

use osgi_base::{List, Text};
use std::alloc::{AllocError, Global};

fn has_class_bytes(name: &[u8]) -> bool
    ensures all { result ≡ list_all is_class_byte name.now }
{
    name.iter().all(|b| matches!(*b, b'a'..=b'z' | b'A'..=b'Z' | b'0'..=b'9' | b'_' | b'$' | b'.'))
}

/// Whether a text is a class name: letters, digits, `_`, `$` and `.`, at least one of them.
fn is_class(name: &[u8]) -> bool
    ensures class { result ≡ is_class name.now }
{
    !name.is_empty() && has_class_bytes(name)
}

/// A word as a class name; none where it is no class name.
pub fn class(alloc: Global, word: &[u8]) -> Result<Option<Text>, AllocError>
    ensures class { IfOk result (λ class. class ≡ class_of word.now) }
    ensures reads { IfOk result (λ read. IfSome read (λ name. IsClass name × (word.now ≡ name))) }
    ensures only { IsClass word.now → IfOk result (λ read. read ≡ Some word.now) }
{
    class_text(alloc, word)
}

fn class_text(alloc: Global, word: &[u8]) -> Result<Option<Text>, AllocError>
    ensures class { IfOk result (λ class. class ≡ class_of word.now) }
{
    if !is_class(word) {
        return Ok(None);
    }
    Ok(Some(Text::of(alloc, word)?))
}

/// Whether each of the names is a class name.
fn are_classes(names: &[&[u8]]) -> bool
    ensures all { result ≡ list_all is_class (texts_of names.now) }
{
    for name in names {
        if !is_class(name) {
            return false;
        }
    }
    true
}

/// What stands between the commas of a word.
fn split_commas<'a>(alloc: Global, word: &'a [u8]) -> Result<Vec<&'a [u8]>, AllocError>
    ensures names { IfOk result (λ names. texts_of names.items ≡ slice_split is_comma word.now) }
{
    word.split(|b| *b == b',').collect(alloc)
}

/// The texts, each in memory of its own.
fn texts(alloc: Global, names: &[&[u8]]) -> Result<List<Text>, AllocError>
    ensures texts { IfOk result (λ texts. texts ≡ texts_of names.now) }
{
    let mut texts = List::with_capacity(alloc, names.len())?;
    for name in names {
        texts.push(Text::of(alloc, name)?)?;
    }
    Ok(texts)
}

/// The class names of a word, which stand between commas; none where one of them is no class name.
pub fn classes(alloc: Global, word: &[u8]) -> Result<Option<List<Text>>, AllocError>
    ensures classes { IfOk result (λ classes. classes ≡ classes_of word.now) }
    ensures reads { IfOk result (λ read. IfSome read (AreClasses word.now)) }
    ensures only { (classes : List (List ℕ)) → AreClasses word.now classes → IfOk result (λ read. read ≡ Some classes) }
{
    class_texts(alloc, word)
}

fn class_texts(alloc: Global, word: &[u8]) -> Result<Option<List<Text>>, AllocError>
    ensures classes { IfOk result (λ classes. classes ≡ classes_of word.now) }
{
    let names = split_commas(alloc, word)?;
    if !are_classes(names.as_slice()) {
        return Ok(None);
    }
    Ok(Some(texts(alloc, names.as_slice())?))
}

fn begins_name(b: u8) -> bool
    ensures begins { result ≡ begins_name b }
{
    matches!(b, b'a'..=b'z' | b'A'..=b'Z' | b'_')
}

fn has_name_bytes(name: &[u8]) -> bool
    ensures all { result ≡ list_all is_name_byte name.now }
{
    name.iter().all(|b| matches!(*b, b'a'..=b'z' | b'A'..=b'Z' | b'0'..=b'9' | b'_'))
}

/// Whether a text is a name as a variable, a listener or a job has it: a letter or `_`, and then letters, digits and `_`.
fn is_name(name: &[u8]) -> bool
    ensures name { result ≡ is_name name.now }
{
    match name {
        [first, rest @ ..] => begins_name(*first) && has_name_bytes(rest),
        [] => false,
    }
}

/// A word as the name of a variable, a listener or a job; none where it is no such name.
pub fn name(alloc: Global, word: &[u8]) -> Result<Option<Text>, AllocError>
    ensures name { IfOk result (λ name. name ≡ name_of word.now) }
    ensures reads { IfOk result (λ read. IfSome read (λ name. IsName name × (word.now ≡ name))) }
    ensures only { IsName word.now → IfOk result (λ read. read ≡ Some word.now) }
{
    name_text(alloc, word)
}

fn name_text(alloc: Global, word: &[u8]) -> Result<Option<Text>, AllocError>
    ensures name { IfOk result (λ name. name ≡ name_of word.now) }
{
    if !is_name(word) {
        return Ok(None);
    }
    Ok(Some(Text::of(alloc, word)?))
}

fn has_token_bytes(token: &[u8]) -> bool
    ensures all { result ≡ list_all is_token_byte token.now }
{
    token.iter().all(|b| matches!(*b, b'a'..=b'z' | b'A'..=b'Z' | b'0'..=b'9' | b'_' | b'-'))
}

/// Whether a text is letters, digits, `_` and `-`, at least one of them.
fn is_token(token: &[u8]) -> bool
    ensures token { result ≡ is_token token.now }
{
    !token.is_empty() && has_token_bytes(token)
}

/// Whether each of the texts is a token.
fn are_tokens(tokens: &[&[u8]]) -> bool
    ensures all { result ≡ list_all is_token (texts_of tokens.now) }
{
    for token in tokens {
        if !is_token(token) {
            return false;
        }
    }
    true
}

/// What stands between the dots of a word.
fn split_dots<'a>(alloc: Global, word: &'a [u8]) -> Result<Vec<&'a [u8]>, AllocError>
    ensures tokens { IfOk result (λ tokens. texts_of tokens.items ≡ slice_split is_dot word.now) }
{
    word.split(|b| *b == b'.').collect(alloc)
}

/// A word as the symbolic name of a bundle: tokens with dots between them. None where it is none.
pub fn bundle_name(alloc: Global, word: &[u8]) -> Result<Option<Text>, AllocError>
    ensures name { IfOk result (λ name. name ≡ bundle_name_of word.now) }
    ensures reads { IfOk result (λ read. IfSome read (λ name. IsBundleName name × (word.now ≡ name))) }
    ensures only { IsBundleName word.now → IfOk result (λ read. read ≡ Some word.now) }
{
    bundle_name_text(alloc, word)
}

fn bundle_name_text(alloc: Global, word: &[u8]) -> Result<Option<Text>, AllocError>
    ensures name { IfOk result (λ name. name ≡ bundle_name_of word.now) }
{
    let tokens = split_dots(alloc, word)?;
    if !are_tokens(tokens.as_slice()) {
        return Ok(None);
    }
    Ok(Some(Text::of(alloc, word)?))
}
