//! Whether what a wire takes may not be on offer any more, once a host is decided.

ghost use Rattle.std.specs.Prelude.{◌↔◌, IfOk, IsTrue};
ghost use Rattle.osgi_base.specs.declared.ids.RevisionId.{RevisionId};
ghost use Rattle.osgi_resolver_hopeless.specs.computed.Clashing.{HasLostAt};
ghost use Rattle.osgi_resolver_hopeless.specs.computed.Losing.{IsReplacing, ReplacesOwn};
ghost use Rattle.osgi_resolver_hopeless.specs.computed.Stuck.{AtMember};
ghost use Rattle.osgi_resolver_theory.specs.States.{State};
ghost use Rattle.osgi_space_rows.specs.Rows.{Requires};
ghost use Rattle.osgi_world.specs.Partial.{partial};
ghost use Rattle.osgi_world.specs.Wirings.{BundleWire};

use osgi_base::RevisionId;
use osgi_resolver_path::Path;
use osgi_space_rows::{Import, Rows};
use std::alloc::{AllocError, Global};

/// Whether the wire goes from the revision to another one, for a package that the revision exports itself.
fn is_replacing(rows: &Rows, revision: u32, row: Import) -> bool
    ensures replacing { IsTrue result ↔ IsReplacing rows.now revision row }
{
    if row.provider == revision {
        return false;
    }
    !rows.exports.of(revision, row.imported).is_empty()
}

/// Whether the revision imports from elsewhere a package that it exports itself.
fn replaces_own(rows: &Rows, revision: u32) -> bool
    ensures replaces { IsTrue result ↔ ReplacesOwn rows.now revision }
{
    let imports = rows.imports.of_revision(revision);
    for row in imports {
        if is_replacing(rows, revision, *row) {
            return true;
        }
    }
    false
}

/// Whether the revision has a wire for a required bundle to this one.
fn has_bundle_wire(rows: &Rows, revision: u32, bundle: u32) -> bool
    ensures wire { IsTrue result ↔ Requires rows.now revision bundle }
{
    for row in rows.required.of(revision) {
        if row.provider == bundle {
            return true;
        }
    }
    false
}

/// Whether a wire for a required bundle goes to the host, which is a member. Only who has a wire to it is asked.
pub fn is_required(path: &Path, host: RevisionId) -> bool
    ensures required { AtMember path.now host (λ P D. IsTrue result
        ↔ ((r : RevisionId) × BundleWire P.world.known (partial P D) r host)) }
{
    let rows = path.rows().rows();
    if rows.required.all().is_empty() {
        return false;
    }
    for holder in path.wired_to(host) {
        if has_bundle_wire(rows, *holder, host.0) {
            return true;
        }
    }
    false
}

/// Whether a wire to the host, which is a member, or to what reaches it may take what is not on offer. It is not so where no
/// bundle wire goes to the host, it imports nothing that it exports, and no fragment can be attached to it.
pub fn may_lose(alloc: Global, path: &Path, host: RevisionId) -> Result<bool, AllocError>
    ensures all { IfOk result (λ answer. AtMember path.now host (λ P D. State P D
        → HasLostAt P D host → IsTrue answer)) }
{
    if is_required(path, host) {
        return Ok(true);
    }
    if replaces_own(path.rows().rows(), host.0) {
        return Ok(true);
    }
    let fragments = path.offers().fragments_for(alloc, host)?;
    Ok(!fragments.as_slice().is_empty())
}
