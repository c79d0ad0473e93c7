//! The providers of the packages that revisions import.

ghost use Rattle.std.specs.Prelude.{IfOk, MatchOption};
ghost use Rattle.osgi_space_rules.specs.computed.Entries.{AreProviders, IsImport, OneProvider};
ghost use Rattle.osgi_space_rules.specs.computed.Growing.{Extends, HasEntry, AnyOf};
ghost use Rattle.osgi_space_rules.specs.computed.Keys.{package_cmp};

use crate::entries::put_one;
use crate::keys::PackageAt;
use osgi_base::RevisionId;
use osgi_lookup::KnownIndex;
use osgi_world::{Wire, Wiring};
use std::alloc::{AllocError, Global};
use std::collections::BTreeMap;

/// The provider of each package wire by the revision that has the wire and the package; none where a revision has wires for
/// one package to two providers.
pub fn package_providers(
    alloc: Global,
    known: &KnownIndex,
    wirings: &[Wiring],
) -> Result<Option<BTreeMap<PackageAt, RevisionId>>, AllocError>
    ensures providers { IfOk result (λ found.
        MatchOption found (¬ OneProvider known.now wirings.now)
        (AreProviders known.now wirings.now)) }
{
    let mut providers = BTreeMap::new(alloc);
    for wiring in wirings {
        if !add_imports(alloc, known, &mut providers, wiring)? {
            return Ok(None);
        }
    }
    Ok(Some(providers))
}

fn add_imports(
    alloc: Global,
    known: &KnownIndex,
    providers: &mut BTreeMap<PackageAt, RevisionId>,
    wiring: &Wiring,
) -> Result<bool, AllocError>
    ensures added { IfOk result (λ ok.
        Extends ok (HasEntry package_cmp providers.old) (HasEntry package_cmp providers.new)
        (λ e. AnyOf (λ wire. IsImport known.now wiring.now.revision wire e) wiring.now.wires)) }
{
    for wire in wiring.wires.items() {
        if !add_import(alloc, known, providers, wiring.revision, wire)? {
            return Ok(false);
        }
    }
    Ok(true)
}

fn add_import(
    alloc: Global,
    known: &KnownIndex,
    providers: &mut BTreeMap<PackageAt, RevisionId>,
    id: RevisionId,
    wire: &Wire,
) -> Result<bool, AllocError>
    ensures added { IfOk result (λ ok.
        Extends ok (HasEntry package_cmp providers.old) (HasEntry package_cmp providers.new)
        (IsImport known.now id wire.now)) }
{
    let capability = wire.capability;
    let Some(name) = known.exported_package(capability.owner, capability.index) else {
        return Ok(true);
    };
    let package = PackageAt::new(alloc, id, name)?;
    Ok(put_one(providers, package, capability.provider)?)
}
