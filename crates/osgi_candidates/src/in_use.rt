//! The revisions that are in use.

ghost use Rattle.std.specs.Prelude.{◌++◌, List, OnOk};
ghost use Rattle.osgi_candidates.specs.computed.InUses.{AreInUse, PutsInUse};
ghost use Rattle.osgi_world.specs.declared.wiring.Wiring.{Wiring};

use osgi_world::Wiring;
use std::alloc::{AllocError, Global};
use std::collections::BTreeSet;

/// Adds the revisions of the wirings, and their fragments.
pub fn add_all_in_use(in_use: &mut BTreeSet<u32>, wirings: &[Wiring]) -> Result<(), AllocError>
    ensures added { OnOk result ((W : List Wiring) → AreInUse W in_use.old
        → AreInUse (W ++ wirings.now) in_use.new) }
{
    for wiring in wirings {
        add_in_use(in_use, wiring)?;
    }
    Ok(())
}

/// Adds the revision of the wiring, and its fragments.
fn add_in_use(in_use: &mut BTreeSet<u32>, wiring: &Wiring) -> Result<(), AllocError>
    ensures added { OnOk result (PutsInUse in_use.old in_use.new wiring.now) }
{
    in_use.insert(wiring.revision.0)?;
    for fragment in wiring.fragments.items() {
        in_use.insert(fragment.0)?;
    }
    Ok(())
}
