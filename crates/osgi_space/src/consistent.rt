//! Whether the wirings of a world are consistent.

ghost use Rattle.std.specs.Prelude.{◌↔◌, IfOk, IsTrue};
ghost use Rattle.osgi_space_rows.specs.Worlds.{AreRowsIn};
ghost use Rattle.osgi_world.specs.Consistency.{IsCoherent};

use osgi_space_rows::WorldRows;
use osgi_space_rules::keeps_wiring_rules;
use osgi_space_sources::all_keep_uses;
use osgi_world::{Wiring, World};
use std::alloc::{AllocError, Global};

/// Whether wirings are consistent, but that it is not asked whether each wire's capability satisfies its requirement.
fn are_consistent(alloc: Global, rows: &WorldRows, wirings: &[Wiring]) -> Result<bool, AllocError>
    requires rows { AreRowsIn rows.now wirings.now }
    ensures consistent { IfOk result (λ answer. IsTrue answer
        ↔ IsCoherent rows.now.known wirings.now) }
{
    if !keeps_wiring_rules(alloc, rows.known(), wirings)? {
        return Ok(false);
    }
    Ok(all_keep_uses(alloc, rows.rows(), wirings)?)
}

/// Whether the wirings of the world are consistent, but that it is not asked whether each wire's capability satisfies its
/// requirement. Nothing is asked of the world: revisions may have several wirings, and wires may go to what is not known.
pub fn is_consistent(alloc: Global, world: &World) -> Result<bool, AllocError>
    ensures consistent { IfOk result (λ answer. IsTrue answer
        ↔ IsCoherent world.now.known world.now.wirings) }
{
    let wirings = world.wirings.items();
    let rows = WorldRows::new(alloc, world.known.items(), wirings)?;
    are_consistent(alloc, &rows, wirings)
}
