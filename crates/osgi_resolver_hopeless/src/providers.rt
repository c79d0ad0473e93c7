//! Whether a revision has two providers of one package.

ghost use Rattle.std.specs.Prelude.{◌≢◌, ◌↔◌, Any, IsTrue, List};
ghost use Rattle.osgi_resolver_hopeless.specs.computed.Providers.{FirstDiffers, HasTwoProviders};
ghost use Rattle.osgi_resolver_hopeless.specs.computed.Stuck.{OtherProvider};
ghost use Rattle.osgi_space_rows.specs.Rows.{imports_for, imports_of};
ghost use Rattle.osgi_space_rows.specs.Worlds.{AreRowsIn};
ghost use Rattle.osgi_space_rows.specs.declared.rows.Import.{Import};
ghost use Rattle.osgi_world.specs.declared.wiring.Wiring.{Wiring};

use crate::packages::exported_number;
use osgi_base::RevisionId;
use osgi_resolver_path::Wired;
use osgi_space_rows::{Import, Rows, WorldRows};

/// Up to so many wires of a revision are looked through before the package's number is looked up.
const FEW_IMPORTS: usize = 4;

/// Whether the first of the revision's wires for the package goes to another provider.
fn first_differs(rows: &Rows, revision: u32, package: u32, provider: u32) -> bool
    ensures differs { IsTrue result
        ↔ FirstDiffers (imports_for rows.now revision «package») provider }
{
    match rows.imports.of(revision, package) {
        [row, ..] => row.provider != provider,
        [] => false,
    }
}

/// Whether the revision has wires for one package to two providers.
pub fn has_two_providers(rows: &Rows, revision: u32) -> bool
    ensures two { IsTrue result ↔ HasTwoProviders rows.now revision }
{
    let imports = rows.imports.of_revision(revision);
    if imports.len() < 2 {
        return false;
    }
    for row in imports {
        if first_differs(rows, revision, row.imported, row.provider) {
            return true;
        }
    }
    false
}

// ---- where one wire is given

/// Whether one of the wires goes to another provider.
fn has_another(imports: &[Import], provider: u32) -> bool
    ensures another { IsTrue result ↔ Any (λ (row : Import). row.provider ≢ provider) imports.now }
{
    for row in imports {
        if row.provider != provider {
            return true;
        }
    }
    false
}

/// Whether the revision may have a wire to another provider. Where it has more than a few the answer is yes.
fn may_have_other_provider(rows: &Rows, revision: u32, provider: u32) -> bool
    ensures another { Any (λ (row : Import). row.provider ≢ provider) (imports_of rows.now revision)
        → IsTrue result }
{
    let imports = rows.imports.of_revision(revision);
    imports.len() > FEW_IMPORTS || has_another(imports, provider)
}

/// Whether the wire is one of the revision, which has another provider of the same package. Where it has
/// few wires these are looked through first; then only those for that package.
pub fn has_other_provider(rows: &WorldRows, revision: RevisionId, wired: Wired) -> bool
    ensures other { (W : List Wiring) → AreRowsIn rows.now W → IsTrue result
        ↔ OtherProvider rows.now.known W revision wired }
{
    if wired.revision.0 != revision.0 {
        return false;
    }
    let capability = wired.wire.capability;
    let wires = rows.rows();
    if !may_have_other_provider(wires, revision.0, capability.provider.0) {
        return false;
    }
    match exported_number(rows, capability) {
        Some(number) => has_another(wires.imports.of(revision.0, number), capability.provider.0),
        None => false,
    }
}
