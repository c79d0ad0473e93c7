//! Whether the singletons that are in use have different names.

ghost use Rattle.std.specs.Prelude.{◌↔◌, IfOk, IsTrue};
ghost use Rattle.osgi_base.specs.computed.Texts.{text_cmp};
ghost use Rattle.osgi_space_rules.specs.computed.Entries.{SingletonsDiffer, IsEntry, IsEntryOf};
ghost use Rattle.osgi_space_rules.specs.computed.Growing.{Extends, HasEntry, AnyOf};
ghost use Rattle.osgi_world.specs.Lookups.{is_current, is_singleton};

use crate::entries::put_one;
use crate::names::name_of;
use osgi_base::{RevisionId, Text};
use osgi_lookup::KnownIndex;
use osgi_world::Wiring;
use std::alloc::{AllocError, Global};
use std::collections::BTreeMap;

/// Whether no two current singletons that are in force or attached have one symbolic name.
pub fn singletons_differ(
    alloc: Global,
    known: &KnownIndex,
    wirings: &[Wiring],
) -> Result<bool, AllocError>
    ensures differ { IfOk result (λ ok. IsTrue ok ↔ SingletonsDiffer known.now wirings.now) }
{
    let mut singletons = BTreeMap::new(alloc);
    for wiring in wirings {
        if !add_payload(alloc, known, &mut singletons, wiring)? {
            return Ok(false);
        }
    }
    Ok(true)
}

fn add_payload(
    alloc: Global,
    known: &KnownIndex,
    singletons: &mut BTreeMap<Text, RevisionId>,
    wiring: &Wiring,
) -> Result<bool, AllocError>
    ensures added { IfOk result (λ ok.
        Extends ok (HasEntry text_cmp singletons.old) (HasEntry text_cmp singletons.new)
        (IsEntryOf known.now wiring.now)) }
{
    if !add_singleton(alloc, known, singletons, wiring.revision)? {
        return Ok(false);
    }
    let fragments = wiring.fragments.items();
    Ok(add_fragments(alloc, known, singletons, fragments)?)
}

fn add_fragments(
    alloc: Global,
    known: &KnownIndex,
    singletons: &mut BTreeMap<Text, RevisionId>,
    fragments: &[RevisionId],
) -> Result<bool, AllocError>
    ensures added { IfOk result (λ ok.
        Extends ok (HasEntry text_cmp singletons.old) (HasEntry text_cmp singletons.new)
        (λ e. AnyOf (λ fragment. IsEntry known.now fragment e) fragments.now)) }
{
    for fragment in fragments {
        if !add_singleton(alloc, known, singletons, *fragment)? {
            return Ok(false);
        }
    }
    Ok(true)
}

fn add_singleton(
    alloc: Global,
    known: &KnownIndex,
    singletons: &mut BTreeMap<Text, RevisionId>,
    id: RevisionId,
) -> Result<bool, AllocError>
    ensures added { IfOk result (λ ok.
        Extends ok (HasEntry text_cmp singletons.old) (HasEntry text_cmp singletons.new)
        (IsEntry known.now id)) }
{
    if !is_current_singleton(known, id) {
        return Ok(true);
    }
    let name = name_of(alloc, known, id)?;
    Ok(put_one(singletons, name, id)?)
}

fn is_current_singleton(known: &KnownIndex, id: RevisionId) -> bool
    ensures both { IsTrue result ↔ IsTrue (is_current known.now id)
        × IsTrue (is_singleton known.now id) }
{
    known.is_singleton(id) && known.is_current(id)
}
