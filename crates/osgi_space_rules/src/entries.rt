//! Maps in which a key has one value.

ghost use Rattle.std.specs.Prelude.{IfOk};
ghost use Rattle.osgi_space_rules.specs.computed.Growing.{PutsOne};

use osgi_base::RevisionId;
use std::alloc::AllocError;
use std::collections::BTreeMap;

/// Puts a revision under the key, unless one stands there. The answer is whether no other does.
pub fn put_one<K: Ord + Drop>(
    entries: &mut BTreeMap<K, RevisionId>,
    key: K,
    id: RevisionId,
) -> Result<bool, AllocError>
    ensures put { IfOk result (λ alone. PutsOne K.cmp alone entries.old entries.new key id) }
{
    if let Some(other) = entries.get(&key).copied() {
        return Ok(other == id);
    }
    entries.insert(key, id)?;
    Ok(true)
}
