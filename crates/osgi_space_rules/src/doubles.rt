//! Whether a wiring has anything twice that it may have once.

ghost use Rattle.std.specs.Prelude.{◌≡◌, ◌↔◌, IfOk, IsTrue};
ghost use Rattle.osgi_base.specs.declared.ids.RevisionId.{RevisionId};
ghost use Rattle.osgi_world.specs.Consistency.{AreDouble};
ghost use Rattle.osgi_world.specs.Lists.{Two};
ghost use Rattle.osgi_world.specs.Lookups.{symbolic_name};

use crate::keys::WireKey;
use crate::names::name_of;
use osgi_base::RevisionId;
use osgi_lookup::KnownIndex;
use osgi_world::Wire;
use std::alloc::{AllocError, Global};
use std::collections::BTreeSet;

/// Whether no requirement has two wires that may have one, and none has two to one capability.
pub fn are_wires_single(
    alloc: Global,
    known: &KnownIndex,
    wires: &[Wire],
) -> Result<bool, AllocError>
    ensures single { IfOk result (λ ok. IsTrue ok ↔ ¬ Two (AreDouble known.now) wires.now) }
{
    if wires.len() < 2 {
        return Ok(true);
    }
    let mut keys = BTreeSet::new(alloc);
    for wire in wires {
        let key = WireKey::new(known, *wire);
        if !keys.insert(key)? {
            return Ok(false);
        }
    }
    Ok(true)
}

/// Whether no two fragments have one symbolic name.
pub fn are_names_single(
    alloc: Global,
    known: &KnownIndex,
    fragments: &[RevisionId],
) -> Result<bool, AllocError>
    ensures single { IfOk result (λ ok. IsTrue ok
        ↔ ¬ Two (λ (e f : RevisionId). symbolic_name known.now e ≡ symbolic_name known.now f)
        fragments.now) }
{
    if fragments.len() < 2 {
        return Ok(true);
    }
    let mut names = BTreeSet::new(alloc);
    for fragment in fragments {
        let name = name_of(alloc, known, *fragment)?;
        if !names.insert(name)? {
            return Ok(false);
        }
    }
    Ok(true)
}
