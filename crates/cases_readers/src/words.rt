//! Words of lines, read by their kinds, and the names that a directive lists.

use cases_text::{put, put_bracketed, put_shown};
use osgi_base::{List, ServiceId, Text};
use osgi_header::names;
use osgi_syntax::{bundle_name, class, classes, id, name, split_words};
use std::alloc::{AllocError, Global};

fn put_each(out: &mut String, texts: &[Text]) -> Result<(), AllocError> {
    for text in texts {
        put_bracketed(out, text.bytes())?;
    }
    Ok(())
}

/// Adds a text as `[TEXT]`, and `none` where there is none.
fn put_read(out: &mut String, read: Result<Option<Text>, AllocError>) -> Result<(), AllocError> {
    match read? {
        Some(text) => put_bracketed(out, text.bytes()),
        None => put(out, "none"),
    }
}

/// Adds texts as `[TEXT]` each, and `none` where there is no list.
fn put_list(
    out: &mut String,
    read: Result<Option<List<Text>>, AllocError>,
) -> Result<(), AllocError> {
    match read? {
        Some(texts) => put_each(out, texts.items()),
        None => put(out, "none"),
    }
}

/// Adds the number of a service, and `none` where there is none.
fn put_id(out: &mut String, read: Option<ServiceId>) -> Result<(), AllocError> {
    match read {
        Some(service) => put_shown(out, &service.0),
        None => put(out, "none"),
    }
}

/// The words of a text, `[WORD]` each.
fn put_words(alloc: Global, out: &mut String, text: &[u8]) -> Result<(), AllocError> {
    for word in split_words(alloc, text)? {
        put_bracketed(out, word)?;
    }
    Ok(())
}

/// The names that a directive's value lists.
fn put_names(alloc: Global, out: &mut String, text: &[u8]) -> Result<(), AllocError> {
    put_each(out, names(alloc, text)?.items())
}

/// What a word of this kind stands for.
pub fn word_read(
    alloc: Global,
    out: &mut String,
    kind: &str,
    word: &[u8],
) -> Result<(), AllocError> {
    if kind == "class" {
        put_read(out, class(alloc, word))
    } else if kind == "classes" {
        put_list(out, classes(alloc, word))
    } else if kind == "name" {
        put_read(out, name(alloc, word))
    } else if kind == "bundle-name" {
        put_read(out, bundle_name(alloc, word))
    } else if kind == "id" {
        put_id(out, id(word))
    } else if kind == "words" {
        put_words(alloc, out, word)
    } else if kind == "name-list" {
        put_names(alloc, out, word)
    } else {
        put(out, "no such word")
    }
}
