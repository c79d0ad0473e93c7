//! The headers of manifests.

use cases_text::{check_copy, number_of, put, put_debug, put_shown, put_text, split_word};
use osgi_base::List;
use osgi_header::{Header, HeaderFault, unfold};
use std::alloc::{AllocError, Global};

fn put_header(out: &mut String, header: &Header) -> Result<(), AllocError> {
    put_text(out, &header.name)?;
    put(out, "=")?;
    put_text(out, &header.value)?;
    put(out, "|")
}

fn put_headers(out: &mut String, headers: &[Header]) -> Result<(), AllocError> {
    for header in headers {
        put_header(out, header)?;
    }
    Ok(())
}

fn add_all(alloc: Global, out: &mut String, headers: &List<Header>) -> Result<(), AllocError> {
    match headers.items() {
        [] => put(out, "none")?,
        items => put_headers(out, items)?,
    }
    check_copy(alloc, out, headers)
}

/// Adds the kind of a fault and its place.
pub fn put_fault(out: &mut String, fault: HeaderFault) -> Result<(), AllocError> {
    put_debug(out, &fault.kind)?;
    put(out, " ")?;
    put_shown(out, &fault.at)
}

/// The headers of a manifest.
pub fn headers(alloc: Global, out: &mut String, text: &[u8]) -> Result<(), AllocError> {
    match unfold(alloc, text)? {
        Ok(headers) => add_all(alloc, out, &headers),
        Err(fault) => put_fault(out, fault),
    }
}

/// Adds a byte so many times.
fn fill(text: &mut Vec<u8>, byte: u8, count: u64) -> Result<(), AllocError> {
    for _ in 0..count {
        text.push(byte)?;
    }
    Ok(())
}

/// A manifest with a header `A..`, whose first line has so many bytes, and one of colons that goes on with it and has so many
/// more after its space.
fn manifest(alloc: Global, first: u64, more: u64) -> Result<Vec<u8>, AllocError> {
    let mut text = Vec::new(alloc);
    fill(&mut text, b'A', first)?;
    text.extend_from_slice(b"\r\n ")?;
    fill(&mut text, b':', more)?;
    text.push(b'\n')?;
    Ok(text)
}

/// Adds what a manifest reads as, or its fault.
fn add_long(alloc: Global, out: &mut String, text: &[u8]) -> Result<(), AllocError> {
    match unfold(alloc, text)? {
        Ok(_) => put(out, "read"),
        Err(fault) => put_fault(out, fault),
    }
}

/// What a manifest of two long lines reads as, or its fault.
pub fn long_lines(alloc: Global, out: &mut String, text: &str) -> Result<(), AllocError> {
    let (first, more) = split_word(text);
    match (number_of(first), number_of(more)) {
        (Some(first), Some(more)) => {
            add_long(alloc, out, manifest(alloc, first, more)?.as_slice())
        }
        _ => put(out, "no lengths"),
    }
}
