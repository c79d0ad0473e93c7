//! From where a bundle gives a package by its own import and export.

ghost use Rattle.std.specs.Prelude.{◌≡◌};
ghost use Rattle.std.specs.List.{list_any};
ghost use Rattle.osgi_loader.specs.computed.Wires.{given_by, has_export, is_export_of, owns_export};

use crate::lookups::{fragments_of, revision_at};
use crate::wires::{is_export_of, provider_of};
use osgi_base::RevisionId;
use osgi_wiring::Wirings;
use osgi_world::Revision;

/// Whether a revision has an export of the package.
fn exports(package: &[u8], revision: &Revision) -> bool
    ensures exports { result ≡ list_any (is_export_of «package».now) revision.now.capabilities }
{
    revision
        .capabilities
        .items()
        .iter()
        .any(|capability| is_export_of(package, capability))
}

/// Whether the revision that is known by this id has one.
fn owns_export(wirings: &Wirings, package: &[u8], owner: RevisionId) -> bool
    ensures exports { result ≡ owns_export wirings.now.world «package».now owner }
{
    revision_at(wirings, owner).map_or(false, |revision| exports(package, revision))
}

/// Whether one of these does.
fn own_export(wirings: &Wirings, package: &[u8], owners: &[RevisionId]) -> bool
    ensures exports { result ≡ list_any (owns_export wirings.now.world «package».now) owners.now }
{
    owners
        .iter()
        .any(|owner| owns_export(wirings, package, *owner))
}

/// Whether a revision or one of its fragments has one.
pub fn has_export(wirings: &Wirings, package: &[u8], revision: RevisionId) -> bool
    ensures exports { result ≡ has_export wirings.now.world «package».now revision }
{
    owns_export(wirings, package, revision)
        || own_export(wirings, package, fragments_of(wirings, revision))
}

/// The revision from which a bundle that exports the package gives it to those that require the bundle: the provider of its wire
/// for the package, else itself.
pub fn given_by(wirings: &Wirings, package: &[u8], bundle: RevisionId) -> Option<RevisionId>
    ensures given { result ≡ given_by wirings.now.world «package».now bundle }
{
    if !has_export(wirings, package, bundle) {
        return None;
    }
    Some(provider_of(wirings, package, bundle).unwrap_or(bundle))
}
