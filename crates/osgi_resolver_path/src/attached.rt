//! The fragments that are attached to a host, as the rows of the wirings have them.

ghost use Rattle.std.specs.Prelude.{◌≡◌, ◌↔◌, ◌∷◌, ℕ, Contains, IfOk, filter};
ghost use Rattle.osgi_base.specs.declared.ids.RevisionId.{RevisionId};
ghost use Rattle.osgi_space_rows.specs.Rows.{Attaches};
ghost use Rattle.osgi_world.specs.Decisions.{Made, attaching, is_yes, value_made};
ghost use Rattle.osgi_world.specs.DueDecisions.{fragments_of};
ghost use Rattle.osgi_world.specs.declared.problem.Problem.{Problem};
ghost use Rattle.osgi_resolver_decisions.specs.computed.Known.{IsProblemIn};
ghost use Rattle.osgi_resolver_path.specs.computed.Attached.{AreAttached, AreNumbers};

use crate::growing::is_first;
use osgi_base::RevisionId;
use osgi_candidates::Offers;
use osgi_space_rows::Rows;
use osgi_space_sources::RevisionSet;
use std::alloc::{AllocError, Global};

/// The numbers of the fragments that are attached to the host.
fn attached_numbers(alloc: Global, rows: &Rows, host: RevisionId) -> Result<RevisionSet, AllocError>
    ensures numbers { IfOk result (λ set. (n : ℕ) → Contains set n ↔ Attaches rows.now host.0 n) }
{
    let attached = rows.attached.of(host.0);
    let mut numbers = Vec::with_capacity(alloc, attached.len())?;
    for row in attached {
        numbers.push(row.fragment)?;
    }
    Ok(RevisionSet::of(alloc, numbers)?)
}

/// Those of the fragments that are attached to the host.
pub fn attached_among(
    alloc: Global,
    rows: &Rows,
    host: RevisionId,
    fragments: &[RevisionId],
) -> Result<Vec<RevisionId>, AllocError>
    ensures attached { IfOk result (λ list. (D : Made) → AreAttached rows.now D host
        → list.items ≡ filter (λ f. is_yes (value_made D (attaching host f))) fragments.now) }
{
    let mut list = Vec::new(alloc);
    if fragments.is_empty() {
        return Ok(list);
    }
    let attached = attached_numbers(alloc, rows, host)?;
    for fragment in fragments {
        if attached.has(fragment.0) {
            list.push(*fragment)?;
        }
    }
    Ok(list)
}

/// Whether the fragment is attached to a host, to which these are attached, once the decision on one fragment has this value.
fn is_attached(
    attached: &RevisionSet,
    decided: RevisionId,
    value: u64,
    fragment: RevisionId,
) -> bool
    ensures attached { (D : Made) (host : RevisionId) → AreNumbers attached.now D host
        → result
        ≡ is_yes (value_made ((attaching host decided, value) ∷ D) (attaching host fragment)) }
{
    if decided.0 == fragment.0 {
        is_first(Some(value))
    } else {
        attached.has(fragment.0)
    }
}

/// The host, and the fragments that are attached to it once the decision on one fragment has this value. The rows are those
/// without that decision.
pub fn owners_of(
    alloc: Global,
    offers: &Offers,
    rows: &Rows,
    host: RevisionId,
    decided: RevisionId,
    value: u64,
) -> Result<Vec<RevisionId>, AllocError>
    ensures owners { IfOk result (λ owners. (P : Problem) (D : Made) → IsProblemIn offers.now P
        → AreAttached rows.now D host
        → owners.items ≡ host ∷ fragments_of P ((attaching host decided, value) ∷ D) host) }
{
    let attached = attached_numbers(alloc, rows, host)?;
    let fragments = offers.fragments_for(alloc, host)?;
    let mut owners = Vec::new(alloc);
    owners.push(host)?;
    for fragment in &fragments {
        if is_attached(&attached, decided, value, *fragment) {
            owners.push(*fragment)?;
        }
    }
    Ok(owners)
}
