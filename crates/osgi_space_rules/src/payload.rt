//! Whether what is mandatory has wires, and fragments fit their hosts.

ghost use Rattle.std.specs.Prelude.{◌↔◌, IsTrue};
ghost use Rattle.osgi_space_rules.specs.computed.Growing.{Each};
ghost use Rattle.osgi_space_rules.specs.computed.Holding.{IsMet, IsPayloadMet};
ghost use Rattle.osgi_world.specs.Lookups.{is_host_of};

use crate::indexed::WiringIndex;
use osgi_base::RevisionId;
use osgi_lookup::KnownIndex;
use osgi_world::{ReqRef, Wiring};

/// Whether each mandatory effective requirement of the payload has a wire.
pub fn is_payload_met(known: &KnownIndex, index: &WiringIndex, wiring: &Wiring) -> bool
    ensures met { IsTrue result ↔ IsPayloadMet known.now index.now wiring.now }
{
    is_met(known, index, wiring.revision, wiring.revision)
        && are_fragments_met(known, index, wiring)
}

fn are_fragments_met(known: &KnownIndex, index: &WiringIndex, wiring: &Wiring) -> bool
    ensures met { IsTrue result
        ↔ Each (IsMet known.now index.now wiring.now.revision) wiring.now.fragments }
{
    for fragment in wiring.fragments.items() {
        if !is_met(known, index, wiring.revision, *fragment) {
            return false;
        }
    }
    true
}

/// Whether the revision has a wire for each mandatory effective requirement of the owner.
fn is_met(known: &KnownIndex, index: &WiringIndex, id: RevisionId, owner: RevisionId) -> bool
    ensures met { IsTrue result ↔ IsMet known.now index.now id owner }
{
    let count = known.requirement_count(owner) as u32;
    for place in 0..count {
        let requirement = ReqRef {
            owner,
            index: place,
        };
        if known.is_needed(requirement) && !index.is_wired(id, requirement) {
            return false;
        }
    }
    true
}

/// Whether each fragment matches its host, and the host permits fragments.
pub fn do_fragments_match(known: &KnownIndex, wiring: &Wiring) -> bool
    ensures matching { IsTrue result
        ↔ Each (λ f. IsTrue (is_host_of known.now f wiring.now.revision)) wiring.now.fragments }
{
    for fragment in wiring.fragments.items() {
        if !known.is_host_of(*fragment, wiring.revision) {
            return false;
        }
    }
    true
}
