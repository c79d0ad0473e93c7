//! Revisions by their ids, by their bundles, and by their wirings.

ghost use Rattle.std.specs.Prelude.{◌≡◌, ◌<◌, ◌≤◌, ◌∷◌, [], ℕ, None, nat_eq, length, map, IfOk};
ghost use Rattle.indexmap.specs.IndexMap as map;
ghost use Rattle.indexmap.specs.IndexSet as set;
ghost use Rattle.osgi_wiring.specs.computed.Kept.{puts, revision_of};

use indexmap::{IndexMap, IndexSet};
use osgi_base::{BundleId, RevisionId};
use osgi_world::Wiring;
use std::alloc::{AllocError, Global};

/// The set of the number 0.
fn set_of_zero(alloc: Global) -> Result<IndexSet<u32>, AllocError>
    ensures zero { IfOk result (λ set. set.keys ≡ 0 ∷ []) }
{
    let mut set = IndexSet::new(alloc);
    set.insert_full(0)?;
    Ok(set)
}

/// The map of 0 to 0.
fn map_of_zero(alloc: Global) -> Result<IndexMap<u32, u32>, AllocError>
    ensures zero { IfOk result (λ r. (b : ℕ) → map.get nat_eq r b ≡ puts b 0 0 None) }
{
    let mut map = IndexMap::new(alloc);
    map.insert(0, 0)?;
    Ok(map)
}

/// Revision 0 of bundle 0 alone is known, current and in force.
pub fn first_index(
    alloc: Global,
) -> Result<(IndexSet<u32>, IndexMap<u32, u32>, IndexSet<u32>), AllocError>
    ensures ids { IfOk result (λ r. r.0.keys ≡ 0 ∷ []) }
    ensures current { IfOk result (λ r. (b : ℕ) → map.get nat_eq r.1 b ≡ puts b 0 0 None) }
    ensures in_force { IfOk result (λ r. r.2.keys ≡ 0 ∷ []) }
{
    let ids = set_of_zero(alloc)?;
    let current = map_of_zero(alloc)?;
    Ok((ids, current, set_of_zero(alloc)?))
}

/// Notes one more revision, as the current one of the bundle. There is room for it.
pub fn note_current(
    ids: &mut IndexSet<u32>,
    current: &mut IndexMap<u32, u32>,
    bundle: BundleId,
    revision: RevisionId,
)
    requires room { (0 < set.spare ids.old) × (0 < map.spare current.old) }
    ensures ids { ids.new.keys ≡ set.insert_key nat_eq ids.old.keys revision.0 }
    ensures current { (b : ℕ) → map.get nat_eq current.new b ≡ puts b bundle.0 revision.0 (map.get nat_eq current.old b) }
{
    let Ok(_) = ids.insert_full(revision.0) else {
        unreachable!()
    };
    let Ok(_) = current.insert(bundle.0, revision.0) else {
        unreachable!()
    };
}

/// Notes the revisions of wirings. There is room for them.
pub fn note_wirings(in_force: &mut IndexSet<u32>, added: &[Wiring])
    requires room { length added.now ≤ set.spare in_force.old }
    ensures keys { in_force.new.keys ≡ set.insert_all nat_eq in_force.old.keys (map revision_of added.now) }
{
    for wiring in added {
        let Ok(_) = in_force.insert_full(wiring.revision.0) else {
            unreachable!()
        };
    }
}
