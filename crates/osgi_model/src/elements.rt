//! The elements of a list, from its text.

ghost use Rattle.std.specs.Prelude.{◌≡◌, ◌++◌, IfOk, OnOk};
ghost use Rattle.osgi_model.specs.computed.ValueReader.{elements_of, unescaped};

use osgi_base::{List, Text};
use std::alloc::{AllocError, Global};

/// Adds a byte that follows a `\`, and before it the `\` where that stands for itself.
fn push_escaped(element: &mut Vec<u8>, b: u8) -> Result<(), AllocError>
    ensures added { OnOk result (element.new.items ≡ element.old.items ++ unescaped b) }
{
    if b != b',' && b != b'\\' {
        element.push(b'\\')?;
    }
    element.push(b)?;
    Ok(())
}

/// What stands between the commas of a text; `\,` and `\\` stand for `,` and `\`.
pub fn elements(alloc: Global, text: &[u8]) -> Result<List<Text>, AllocError>
    ensures elements { IfOk result (λ elements. elements ≡ elements_of text.now) }
{
    let mut elements = List::new(alloc)?;
    let mut element = Vec::new(alloc);
    let mut escaped = false;
    for b in text {
        if escaped {
            push_escaped(&mut element, *b)?;
            escaped = false;
        } else if *b == b',' {
            elements.push(Text::from_vec(alloc, element)?)?;
            element = Vec::new(alloc);
        } else if *b == b'\\' {
            escaped = true;
        } else {
            element.push(*b)?;
        }
    }
    if escaped {
        element.push(b'\\')?;
    }
    elements.push(Text::from_vec(alloc, element)?)?;
    Ok(elements)
}
