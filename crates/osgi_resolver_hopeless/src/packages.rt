//! The numbers of the packages that capabilities export.

ghost use Rattle.std.specs.Prelude.{◌≡◌, ◌↔◌, ℕ, List, Some};
ghost use Rattle.osgi_space_rows.specs.Names.{HasNumber};
ghost use Rattle.osgi_space_rows.specs.Worlds.{AreNumbered};
ghost use Rattle.osgi_world.specs.Wirings.{IsExport};

use osgi_space_rows::WorldRows;
use osgi_world::CapRef;

/// The number of the package that the capability is an export of, if it is one.
pub fn exported_number(rows: &WorldRows, capability: CapRef) -> Option<u32>
    ensures number { (n : ℕ) → (result ≡ Some n)
        ↔ ((p : List ℕ) × IsExport rows.now.known capability.owner capability.index p
        × HasNumber rows.now.names p n) }
    ensures numbered { AreNumbered rows.now.names rows.now.rows }
{
    let names = rows.names();
    let package = rows
        .known()
        .exported_package(capability.owner, capability.index)?;
    names.number(package)
}
