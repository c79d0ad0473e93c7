//! Bytes as the rows of the case programs write them: `\n`, `\r`, `\t`, `\\`, and `\xHH` for any other byte that is not
//! printable ASCII; the parts of their answers; what readers gave; and each line printed with its answer.
#![tactic(auto)]

mod answers;
mod lines;
mod readings;

ghost use Rattle.std.specs.Prelude.{◌<◌, IfSome, length};

pub use answers::{
    are_equal, check_copy, number_of, put, put_bracketed, put_debug, put_quoted, put_shown,
    put_text, split_at, split_word, text_of,
};
pub use lines::{Cases, answer_line, answer_lines};
pub use readings::{check_read, value_if_any, value_or, value_or_fault};
use std::alloc::{AllocError, Global};

/// The number of a hexadecimal digit; 0 for any other byte.
fn digit(byte: u8) -> u8 {
    match byte {
        b'0'..=b'9' => byte - b'0',
        b'a'..=b'f' => byte - b'a' + 10,
        _ => 0,
    }
}

/// The byte that a text begins with, and the text after it.
fn first_byte(text: &[u8]) -> Option<(u8, &[u8])>
    ensures shorter { IfSome result (λ r. length r.1.now < length text.now) }
{
    match text {
        [] => None,
        [b'\\', b'x', high, low, more @ ..] => {
            let byte = digit(*high).wrapping_mul(16).wrapping_add(digit(*low));
            Some((byte, more))
        }
        [b'\\', b'n', more @ ..] => Some((b'\n', more)),
        [b'\\', b'r', more @ ..] => Some((b'\r', more)),
        [b'\\', b't', more @ ..] => Some((b'\t', more)),
        [b'\\', byte, more @ ..] | [byte, more @ ..] => Some((*byte, more)),
    }
}

/// The bytes that a text stands for.
pub fn bytes_of(alloc: Global, text: &str) -> Result<Vec<u8>, AllocError> {
    let mut bytes = Vec::new(alloc);
    let mut rest = text.as_bytes();
    while let Some((byte, more)) = first_byte(rest) {
        bytes.push(byte)?;
        rest = more;
    }
    Ok(bytes)
}

/// Adds a byte to a text, as a row writes it.
pub fn push_byte(out: &mut String, byte: u8) -> Result<(), AllocError> {
    match byte {
        b'\n' => out.push_str("\\n"),
        b'\r' => out.push_str("\\r"),
        b'\t' => out.push_str("\\t"),
        b'\\' => out.push_str("\\\\"),
        b' '..=b'~' => out.push(char::from(byte)),
        _ => write!(out, "\\x{byte:02x}"),
    }
}

/// Adds bytes to a text, as a row writes them.
pub fn push_bytes(out: &mut String, bytes: &[u8]) -> Result<(), AllocError> {
    for byte in bytes {
        push_byte(out, *byte)?;
    }
    Ok(())
}

/// Adds a complaint, unless all is well.
pub fn complain(out: &mut String, well: bool, complaint: &str) -> Result<(), AllocError> {
    if well {
        Ok(())
    } else {
        out.push_str(complaint)
    }
}
