//! What is found in the wirings of a revision, without a scan of the world.

ghost use Rattle.std.specs.Prelude.{◌≡◌, ◌++◌, slice_get};
ghost use Rattle.std.specs.Option.{option_copied};
ghost use Rattle.osgi_loader.specs.computed.Wires.{fragments_of, wires_of};
ghost use Rattle.osgi_world.specs.Lookups.{capability_at, is_reexport, requirement_at, revision_at};

use osgi_base::RevisionId;
use osgi_wiring::Wirings;
use osgi_world::{CapRef, Capability, ReqRef, Requirement, Revision, Wire};

/// The wires of a revision; none where it is not in force.
pub fn wires_of(wirings: &Wirings, revision: RevisionId) -> &[Wire]
    ensures wires { result.now ≡ wires_of wirings.now.world revision }
{
    match wirings.wiring(revision) {
        Some(wiring) => wiring.wires.items(),
        None => &[],
    }
}

/// The fragments that are attached to a revision; none where it is not in force.
pub fn fragments_of(wirings: &Wirings, revision: RevisionId) -> &[RevisionId]
    ensures fragments { result.now ≡ fragments_of wirings.now.world revision }
{
    match wirings.wiring(revision) {
        Some(wiring) => wiring.fragments.items(),
        None => &[],
    }
}

/// What a known revision says.
pub fn revision_at(wirings: &Wirings, id: RevisionId) -> Option<&Revision>
    ensures revision { option_copied result ≡ revision_at wirings.now.world.known id }
{
    wirings.known(id).map(|known| known.revision.get())
}

/// The capability at a place of its owner.
pub fn capability_at(wirings: &Wirings, place: CapRef) -> Option<&Capability>
    ensures capability { option_copied result
        ≡ capability_at wirings.now.world.known place.owner place.index }
{
    let revision = revision_at(wirings, place.owner)?;
    revision.capabilities.items().get(place.index as usize)
}

/// The requirement of a revision at a place. The places of dynamic imports are those after all requirements.
fn requirement_of(revision: &Revision, index: usize) -> Option<&Requirement>
    ensures requirement { option_copied result
        ≡ slice_get (revision.now.requirements ++ revision.now.dynamics) index }
{
    let requirements = revision.requirements.items();
    let count = requirements.len();
    if index < count {
        return requirements.get(index);
    }
    revision.dynamics.items().get(index - count)
}

fn requirement_at(wirings: &Wirings, place: ReqRef) -> Option<&Requirement>
    ensures requirement { option_copied result ≡ requirement_at wirings.now.world.known place }
{
    let revision = revision_at(wirings, place.owner)?;
    requirement_of(revision, place.index as usize)
}

/// Whether those who require the owner see what it requires at this place.
pub fn is_reexport(wirings: &Wirings, place: ReqRef) -> bool
    ensures reexport { result ≡ is_reexport wirings.now.world.known place }
{
    requirement_at(wirings, place).map_or(false, |requirement| requirement.reexport)
}
