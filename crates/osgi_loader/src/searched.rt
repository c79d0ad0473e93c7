//! Whose files are searched for the classes of a package.

ghost use Rattle.std.specs.Prelude.{◌≡◌, ◌++◌, IfOk, OnOk, map};
ghost use Rattle.osgi_loader.specs.computed.Wires.{numbered};
ghost use Rattle.osgi_loader.specs.computed.Searched.{AddsGiven};
ghost use Rattle.osgi_ops.specs.Loading.{all_with_fragments, AreRequired, AreSearched};
ghost use Rattle.osgi_wiring.specs.States.{IsKeptWorld};

use crate::lookups::wires_of;
use crate::reach::given;
use crate::wires::{is_required, provider_of};
use osgi_base::{RevisionId, rising};
use osgi_wiring::Wirings;
use osgi_world::Wire;
use std::alloc::{AllocError, Global};

/// Adds the revisions of these numbers.
fn add_numbered(hosts: &mut Vec<RevisionId>, numbers: &[u32]) -> Result<(), AllocError>
    ensures added { OnOk result (hosts.new.items ≡ hosts.old.items ++ map numbered numbers.now) }
{
    for number in numbers {
        hosts.push(RevisionId(*number))?;
    }
    Ok(())
}

/// Adds the revisions from which a required bundle gives the package, rising.
fn add_given(
    alloc: Global,
    hosts: &mut Vec<RevisionId>,
    wirings: &Wirings,
    package: &[u8],
    bundle: RevisionId,
) -> Result<(), AllocError>
    requires holds { IsKeptWorld wirings.now.world wirings.now.issued }
    ensures added { OnOk result
        (AddsGiven wirings.now.world «package».now bundle hosts.old.items hosts.new.items) }
{
    let numbers = rising(given(alloc, wirings, package, &[bundle.0])?);
    add_numbered(hosts, numbers.as_slice())?;
    Ok(())
}

/// The revisions from which the bundles that these wires go to give the package, wire after wire.
fn required(
    alloc: Global,
    wirings: &Wirings,
    package: &[u8],
    wires: &[Wire],
) -> Result<Vec<RevisionId>, AllocError>
    requires holds { IsKeptWorld wirings.now.world wirings.now.issued }
    ensures required { IfOk result (λ hosts.
        AreRequired wirings.now.world «package».now wires.now
        (all_with_fragments wirings.now.world hosts.items)) }
{
    let mut hosts = Vec::new(alloc);
    for wire in wires {
        if is_required(wirings, wire) {
            add_given(
                alloc,
                &mut hosts,
                wirings,
                package,
                wire.capability.provider,
            )?;
        }
    }
    Ok(hosts)
}

/// The revisions whose files are searched, each before those of its fragments: where the package is imported from another revision
/// that provider alone; else those of the required bundles, and then the revision itself.
pub fn searched(
    alloc: Global,
    wirings: &Wirings,
    package: &[u8],
    revision: RevisionId,
) -> Result<Vec<RevisionId>, AllocError>
    requires holds { IsKeptWorld wirings.now.world wirings.now.issued }
    ensures searched { IfOk result (λ hosts.
        AreSearched wirings.now.world revision «package».now
        (all_with_fragments wirings.now.world hosts.items)) }
{
    let provider = provider_of(wirings, package, revision).unwrap_or(revision);
    if provider != revision {
        return Ok(Vec::from_array(alloc, [provider])?);
    }
    let mut hosts = required(alloc, wirings, package, wires_of(wirings, revision))?;
    hosts.push(revision)?;
    Ok(hosts)
}
