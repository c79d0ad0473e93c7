//! Bytes between quotes, as an answer writes them.

use cases_text::push_byte;
use std::alloc::AllocError;

fn put_byte(out: &mut String, byte: u8) -> Result<(), AllocError> {
    if byte == b'"' {
        out.push_str("\\\"")
    } else {
        push_byte(out, byte)
    }
}

/// Appends a text that stands for the bytes.
pub fn put_bytes(out: &mut String, bytes: &[u8]) -> Result<(), AllocError> {
    for byte in bytes {
        put_byte(out, *byte)?;
    }
    Ok(())
}

/// Appends a text that stands for the bytes, between quotes.
pub fn put_quoted(out: &mut String, bytes: &[u8]) -> Result<(), AllocError> {
    out.push('"')?;
    put_bytes(out, bytes)?;
    out.push('"')
}
