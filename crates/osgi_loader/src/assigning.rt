//! Whether a service of a class that one bundle registered is assignable to another.

ghost use Rattle.std.specs.Prelude.{◌↔◌, IfOk, IsTrue};
ghost use Rattle.osgi_ops.specs.Assignable.{AreAssignable, IsAssignable, package_of};

use crate::classes::package_of;
use crate::sources::{do_share, sources};
use osgi_base::{BundleId, RevisionId, Text};
use osgi_wiring::Wirings;
use std::alloc::{AllocError, Global};

/// Whether both revisions have the same sources of the class's package, and some; or the registrant has none, and the asker is the
/// registrant.
pub fn assignable(
    alloc: Global,
    wirings: &Wirings,
    registrant: RevisionId,
    asker: RevisionId,
    class: &Text,
) -> Result<bool, AllocError>
    ensures assignable { IfOk result (λ is.
        IsTrue is ↔ AreAssignable wirings.now.world registrant asker (package_of class.now)) }
{
    // What holds of the world at all times is said where it is asked for.
    let _ = wirings.world();
    let package = package_of(class.bytes());
    let ours = sources(alloc, wirings, package, registrant)?;
    if registrant == asker {
        return Ok(true);
    }
    let theirs = sources(alloc, wirings, package, asker)?;
    Ok(do_share(ours.as_slice(), theirs.as_slice()))
}

/// The same of the current revisions of two bundles. A bundle without one shares nothing.
pub fn is_assignable(
    alloc: Global,
    wirings: &Wirings,
    registrant: BundleId,
    asker: BundleId,
    class: &Text,
) -> Result<bool, AllocError>
    ensures assignable { IfOk result (λ is.
        IsTrue is ↔ IsAssignable wirings.now.world registrant asker class.now) }
{
    let Some(ours) = wirings.current(registrant) else {
        return Ok(false);
    };
    let Some(theirs) = wirings.current(asker) else {
        return Ok(false);
    };
    Ok(assignable(alloc, wirings, ours.id, theirs.id, class)?)
}
