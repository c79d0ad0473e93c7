//! Repeated headers, of which the last counts.

ghost use Rattle.std.specs.Prelude.{◌≡◌, [], ◌∷◌, ◌++◌, if◌then◌else◌, IfOk, OnOk};
ghost use Rattle.std.specs.Str.{str_to_ascii_lowercase};
ghost use Rattle.osgi_header.specs.Headers.{counting};

use crate::header::Header;
use std::alloc::{AllocError, Global};
use std::collections::BTreeSet;

fn lowercase(alloc: Global, name: &[u8]) -> Result<Vec<u8>, AllocError>
    ensures lowercase { IfOk result (λ low. low.items ≡ str_to_ascii_lowercase name.now) }
{
    let mut low = name.to_vec(alloc)?;
    low.make_ascii_lowercase();
    Ok(low)
}

/// Adds a header at the end if it counts.
fn push_if(kept: &mut Vec<Header>, header: Header, counts: bool) -> Result<(), AllocError>
    ensures added { OnOk result (kept.new.items ≡ (if counts then kept.old.items ++ header ∷ [] else kept.old.items)) }
{
    if counts {
        kept.push(header)?;
    }
    Ok(())
}

/// The headers that count: those whose name does not come again after them, in whatever case.
pub fn keep_last(alloc: Global, headers: Vec<Header>) -> Result<Vec<Header>, AllocError>
    ensures counting { IfOk result (λ kept. kept.items ≡ counting headers.items) }
{
    let mut left = headers;
    let mut seen = BTreeSet::new(alloc);
    let mut kept = Vec::new(alloc);
    while let Some(header) = left.pop() {
        let name = lowercase(alloc, header.name.bytes())?;
        let counts = seen.insert(name)?;
        push_if(&mut kept, header, counts)?;
    }
    kept.reverse();
    Ok(kept)
}
