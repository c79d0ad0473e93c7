//! The members that lead to a revision along wires.

ghost use Rattle.std.specs.Prelude.{◌↔◌, ℕ, Contains, IfOk, OnOk};
ghost use Rattle.osgi_resolver_hopeless.specs.computed.Leading.{LeadsBack};
ghost use Rattle.osgi_resolver_path.specs.Standing.{At};
ghost use Rattle.osgi_resolver_path.specs.Wires.{IsWiredTo};
ghost use Rattle.osgi_space_sources.specs.computed.Adds.{Adds};

use osgi_base::RevisionId;
use osgi_resolver_path::Path;
use osgi_space_sources::Found;
use std::alloc::{AllocError, Global};

/// Adds the members that have a wire to the revision.
fn add_wired(found: &mut Found<u32>, path: &Path, revision: RevisionId) -> Result<(), AllocError>
    ensures added { OnOk result (At path.now (λ P D.
        Adds (IsWiredTo P D revision) found.old found.new)) }
{
    for member in path.wired_to(revision) {
        found.add(*member)?;
    }
    Ok(())
}

/// The host, the members that have a wire to it, those that have a wire to one of these, and so on.
pub fn leading_to(alloc: Global, path: &Path, host: RevisionId) -> Result<Found<u32>, AllocError>
    ensures leading { IfOk result (λ found. At path.now (λ P D. (n : ℕ)
        → Contains found n ↔ LeadsBack P D host n)) }
{
    let mut found = Found::new(alloc);
    found.add(host.0)?;
    let mut next = 0;
    while next < found.len() {
        let member = found.items()[next];
        add_wired(&mut found, path, RevisionId(member))?;
        next += 1;
    }
    Ok(found)
}
