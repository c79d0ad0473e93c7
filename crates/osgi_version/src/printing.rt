//! The text of a version, from its parts.

ghost use Rattle.std.specs.Prelude.{◌≡◌, ◌++◌, IfOk, OnOk};
ghost use Rattle.std.specs.Fmt.{decimal};
ghost use Rattle.osgi_version.specs.VersionValues.{parts_text};

use itoa::Buffer;
use std::alloc::{AllocError, Global};

fn add_number(out: &mut Vec<u8>, n: u32) -> Result<(), AllocError>
    ensures added { OnOk result (out.new.items ≡ out.old.items ++ decimal n) }
{
    let mut buffer = Buffer::new();
    out.extend_from_slice(buffer.format(n).as_bytes())
}

/// Three numbers, and the qualifier unless it is empty, with dots between.
pub fn printed(
    alloc: Global,
    major: u32,
    minor: u32,
    micro: u32,
    qualifier: &[u8],
) -> Result<Vec<u8>, AllocError>
    ensures text { IfOk result (λ t. t.items ≡ parts_text (record { major = major; minor = minor; micro = micro; qualifier = qualifier.now })) }
{
    let mut out = Vec::new(alloc);
    add_number(&mut out, major)?;
    out.push(b'.')?;
    add_number(&mut out, minor)?;
    out.push(b'.')?;
    add_number(&mut out, micro)?;
    if !qualifier.is_empty() {
        out.push(b'.')?;
        out.extend_from_slice(qualifier)?;
    }
    Ok(out)
}
