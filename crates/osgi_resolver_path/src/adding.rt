//! The wirings that the decisions of a course add.

ghost use Rattle.std.specs.Prelude.{◌≡◌, ◌++◌, ◌<◌, IfOk, OnOk, filter, flat_map, map};
ghost use Rattle.std.specs.Option.{option_to_list};
ghost use Rattle.osgi_base.specs.declared.ids.RevisionId.{RevisionId};
ghost use Rattle.osgi_world.specs.Decisions.{attaching, choose, is_yes, pick};
ghost use Rattle.osgi_world.specs.DueDecisions.{fragments_of, payload};
ghost use Rattle.osgi_world.specs.Lists.{In};
ghost use Rattle.osgi_world.specs.Partial as partial;
ghost use Rattle.osgi_world.specs.Partial.{wires_for, wiring};
ghost use Rattle.osgi_world.specs.Payloads.{own_requirements, requirements_of};
ghost use Rattle.osgi_world.specs.declared.problem.Problem.{Problem};
ghost use Rattle.osgi_resolver_path.specs.computed.Valued.{value_in};
ghost use Rattle.osgi_resolver_path.specs.computed.Views.{IsOwner, IsReady, IsReadyWith, by_value, decided_in, wire_to};
ghost use Rattle.osgi_resolver_path.specs.declared.course.Course.{Course};

use crate::course::Course;
use crate::growing::is_first;
use crate::step::candidate_at;
use crate::values::Values;
use osgi_base::{List, RevisionId};
use osgi_resolver_decisions::{DecisionRef, Lists};
use osgi_world::{CapRef, ReqRef, Wire, Wiring};
use std::alloc::{AllocError, Global};

/// Whether the requirement, which may have several wires, gets this one.
fn is_picked(values: &Values, host: RevisionId, requirement: ReqRef, capability: CapRef) -> bool
    ensures picked { result ≡ is_yes (value_in values.now (pick host requirement capability)) }
{
    let decision = DecisionRef::Pick {
        host,
        requirement,
        capability,
    };
    is_first(values.get(decision))
}

/// Adds a wire to each candidate that is picked.
fn add_picked(
    wires: &mut List<Wire>,
    values: &Values,
    host: RevisionId,
    requirement: ReqRef,
    candidates: &[CapRef],
) -> Result<(), AllocError>
    ensures added { OnOk result (wires.new ≡ wires.old ++ map (wire_to requirement) (filter (λ c.
        is_yes (value_in values.now (pick host requirement c))) candidates.now)) }
{
    for capability in candidates {
        if is_picked(values, host, requirement, *capability) {
            wires.push(Wire {
                requirement,
                capability: *capability,
            })?;
        }
    }
    Ok(())
}

/// The candidate that the requirement gets, if it is decided and gets one.
fn chosen(
    values: &Values,
    host: RevisionId,
    requirement: ReqRef,
    candidates: &[CapRef],
) -> Option<CapRef>
    ensures chosen { option_to_list result
        ≡ by_value candidates.now (value_in values.now (choose host requirement)) }
{
    let decision = DecisionRef::Choose { host, requirement };
    match values.get(decision) {
        Some(value) => candidate_at(candidates, value),
        None => None,
    }
}

/// Adds the wire to the candidate that is chosen, if there is one.
fn add_chosen(
    wires: &mut List<Wire>,
    values: &Values,
    host: RevisionId,
    requirement: ReqRef,
    candidates: &[CapRef],
) -> Result<(), AllocError>
    ensures added { OnOk result (wires.new ≡ wires.old ++ map (wire_to requirement)
        (by_value candidates.now (value_in values.now (choose host requirement)))) }
{
    match chosen(values, host, requirement, candidates) {
        Some(capability) => {
            wires.push(Wire {
                requirement,
                capability,
            })?;
            Ok(())
        }
        None => Ok(()),
    }
}

/// Adds the wires of a requirement of a member's payload, in the order of its candidates.
fn add_requirement(
    wires: &mut List<Wire>,
    lists: &Lists,
    values: &Values,
    host: RevisionId,
    requirement: ReqRef,
) -> Result<(), AllocError>
    ensures added { OnOk result ((P : Problem) (course : Course)
        → IsReadyWith P lists.now values.now course → In host course.ids.items
        → In requirement (payload P (decided_in course) host)
        → wires.new ≡ wires.old ++ wires_for P (decided_in course) host requirement) }
{
    if !lists.offers().known().is_effective(requirement) {
        return Ok(());
    }
    let candidates = lists.candidates(requirement);
    if lists.offers().known().is_multiple(requirement) {
        add_picked(wires, values, host, requirement, candidates)?;
    } else {
        add_chosen(wires, values, host, requirement, candidates)?;
    }
    Ok(())
}

/// Adds those of an owner of the payload.
fn add_owner(
    wires: &mut List<Wire>,
    lists: &Lists,
    values: &Values,
    host: RevisionId,
    owner: RevisionId,
) -> Result<(), AllocError>
    ensures added { OnOk result ((P : Problem) (course : Course)
        → IsReadyWith P lists.now values.now course → In host course.ids.items
        → IsOwner P course host owner
        → wires.new ≡ wires.old
        ++ flat_map (wires_for P (decided_in course) host) (own_requirements P.world.known owner)) }
{
    for index in 0..lists.offers().known().requirement_count(owner) {
        let requirement = ReqRef {
            owner,
            index: index as u32,
        };
        add_requirement(wires, lists, values, host, requirement)?;
    }
    Ok(())
}

/// Adds those of several owners.
fn add_owners(
    wires: &mut List<Wire>,
    lists: &Lists,
    values: &Values,
    host: RevisionId,
    owners: &[RevisionId],
) -> Result<(), AllocError>
    ensures added { OnOk result ((P : Problem) (course : Course)
        → IsReadyWith P lists.now values.now course → In host course.ids.items
        → ((o : RevisionId) → In o owners.now → IsOwner P course host o)
        → wires.new ≡ wires.old ++ flat_map (wires_for P (decided_in course) host)
        (requirements_of P.world.known owners.now)) }
{
    for owner in owners {
        add_owner(wires, lists, values, host, *owner)?;
    }
    Ok(())
}

/// Whether the fragment is attached to the host.
fn is_attached(values: &Values, host: RevisionId, fragment: RevisionId) -> bool
    ensures attached { result ≡ is_yes (value_in values.now (attaching host fragment)) }
{
    is_first(values.get(DecisionRef::Attach { host, fragment }))
}

/// The fragments that are attached to a member, by bundle id.
fn attached(
    alloc: Global,
    lists: &Lists,
    values: &Values,
    member: RevisionId,
) -> Result<Vec<RevisionId>, AllocError>
    ensures attached { IfOk result (λ list. (P : Problem) (course : Course)
        → IsReadyWith P lists.now values.now course → In member course.ids.items
        → list.items ≡ fragments_of P (decided_in course) member) }
{
    let mut fragments = Vec::new(alloc);
    for fragment in lists.fragments_for(member) {
        if is_attached(values, member, *fragment) {
            fragments.push(*fragment)?;
        }
    }
    Ok(fragments)
}

/// The wiring of a member, as far as decided.
fn wiring_of(
    alloc: Global,
    lists: &Lists,
    values: &Values,
    member: RevisionId,
) -> Result<Wiring, AllocError>
    ensures wiring { IfOk result (λ made. (P : Problem) (course : Course)
        → IsReadyWith P lists.now values.now course → In member course.ids.items
        → made ≡ wiring P (decided_in course) member) }
{
    let fragments = attached(alloc, lists, values, member)?;
    let mut wires = List::new(alloc)?;
    add_owner(&mut wires, lists, values, member, member)?;
    add_owners(&mut wires, lists, values, member, fragments.as_slice())?;
    Ok(Wiring {
        revision: member,
        wires,
        fragments: List::from(fragments),
    })
}

/// The wirings that the decisions add.
pub fn added(alloc: Global, lists: &Lists, course: &Course) -> Result<List<Wiring>, AllocError>
    ensures added { IfOk result (λ list. (P : Problem) → IsReady P lists.now course.now
        → list ≡ partial.added P (decided_in course.now)) }
{
    let values = Values::of(alloc, course.marks.as_slice())?;
    let mut list = List::new(alloc)?;
    for member in &course.ids {
        list.push(wiring_of(alloc, lists, &values, *member)?)?;
    }
    Ok(list)
}
