//! Classes by their names: the package of one, and the path of its file.

ghost use Rattle.std.specs.Prelude.{◌≡◌, ◌==◌, if◌then◌else◌, IfOk, map};
ghost use Rattle.osgi_ops.specs.Assignable.{package_of};
ghost use Rattle.osgi_ops.specs.Loading.{path_of};

use std::alloc::{AllocError, Global};

/// The package of a class: what stands before the last dot of its name, and nothing where it has none.
pub fn package_of(class: &[u8]) -> &[u8]
    ensures package { result.now ≡ package_of class.now }
{
    let mut end = 0;
    for (place, byte) in class.iter().enumerate() {
        if *byte == b'.' {
            end = place;
        }
    }
    &class[..end]
}

fn slashed(byte: u8) -> u8
    ensures slash { result ≡ (if byte == 46 then 47 else byte) }
{
    if byte == b'.' { b'/' } else { byte }
}

/// A name with `/` for `.`.
fn slashes(alloc: Global, name: &[u8]) -> Result<Vec<u8>, AllocError>
    ensures slashes { IfOk result (λ path.
        path.items ≡ map (λ b. if b == 46 then 47 else b) name.now) }
{
    name.iter().map(|byte| slashed(*byte)).collect(alloc)
}

/// The path of a class's file: its name with `/` for `.`, and `.osc`.
pub fn path_of(alloc: Global, class: &[u8]) -> Result<Vec<u8>, AllocError>
    ensures path { IfOk result (λ path. path.items ≡ path_of class.now) }
{
    let mut path = slashes(alloc, class)?;
    path.extend_from_slice(b".osc")?;
    Ok(path)
}
