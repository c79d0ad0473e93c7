//! What lines are made of: their indentation, numbers and quoted texts.

ghost use Rattle.std.specs.Prelude.{◌≡◌, ◌+◌, ◌==◌, ◌||◌, if◌then◌else◌, ◌∷◌, [], ◌++◌, OnOk, replicate};
ghost use Rattle.std.specs.Fmt.{decimal, signed_decimal};
ghost use Rattle.osgi_session.specs.RefusalTexts.{spaced};
ghost use Rattle.osgi_session.specs.Rendering.{quoted};

use itoa::Buffer;
use std::alloc::AllocError;

/// Adds two spaces for each bracket that a line stands in.
pub fn add_indent(out: &mut Vec<u8>, depth: usize) -> Result<(), AllocError>
    ensures added { OnOk result (out.new.items ≡ out.old.items ++ replicate (depth + depth) 32) }
{
    for _level in 0..depth {
        out.extend_from_slice(b"  ")?;
    }
    Ok(())
}

/// Adds a number in decimal.
pub fn add_number(out: &mut Vec<u8>, number: u64) -> Result<(), AllocError>
    ensures added { OnOk result (out.new.items ≡ out.old.items ++ decimal number) }
{
    let mut buffer = Buffer::new();
    out.extend_from_slice(buffer.format(number).as_bytes())
}

/// Adds a text after a space.
pub fn add_spaced(out: &mut Vec<u8>, text: &[u8]) -> Result<(), AllocError>
    ensures added { OnOk result (out.new.items ≡ out.old.items ++ spaced text.now) }
{
    out.push(b' ')?;
    out.extend_from_slice(text)
}

/// Adds a number in decimal, after a space.
pub fn add_spaced_number(out: &mut Vec<u8>, number: u64) -> Result<(), AllocError>
    ensures added { OnOk result (out.new.items ≡ out.old.items ++ spaced (decimal number)) }
{
    out.push(b' ')?;
    add_number(out, number)
}

/// Adds a ranking in decimal.
pub fn add_ranking(out: &mut Vec<u8>, ranking: i32) -> Result<(), AllocError>
    ensures added { OnOk result (out.new.items ≡ out.old.items ++ signed_decimal ranking) }
{
    let mut buffer = Buffer::new();
    out.extend_from_slice(buffer.format(ranking).as_bytes())
}

/// Adds a byte as it stands between quotes.
fn add_escaped(out: &mut Vec<u8>, byte: u8) -> Result<(), AllocError>
    ensures added { OnOk result
        (out.new.items
        ≡ out.old.items ++
        (if (byte == 34) || (byte == 92) then 92 ∷ byte ∷ [] else byte ∷ [])) }
{
    if byte == b'"' || byte == b'\\' {
        return out.extend_from_slice(&[b'\\', byte]);
    }
    out.push(byte)?;
    Ok(())
}

/// Adds a text between quotes, with a `\` before each `"` and `\`.
pub fn add_quoted(out: &mut Vec<u8>, text: &[u8]) -> Result<(), AllocError>
    ensures added { OnOk result (out.new.items ≡ out.old.items ++ quoted text.now) }
{
    out.push(b'"')?;
    for byte in text {
        add_escaped(out, *byte)?;
    }
    out.push(b'"')?;
    Ok(())
}
