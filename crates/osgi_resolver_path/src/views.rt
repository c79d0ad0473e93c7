//! What is seen of a course: decided members and wires.

ghost use Rattle.std.specs.Prelude.{◌≡◌, ◌↔◌, ℕ, IfOk, Some, length, reverse, slice_get};
ghost use Rattle.std.specs.Bool.{Decides};
ghost use Rattle.std.specs.Option.{option_to_list};
ghost use Rattle.osgi_base.specs.declared.ids.RevisionId.{RevisionId};
ghost use Rattle.osgi_space_rows.specs.Agree.{id};
ghost use Rattle.osgi_world.specs.DueDecisions.{members};
ghost use Rattle.osgi_world.specs.Hopeless.{IsDecided};
ghost use Rattle.osgi_world.specs.Lists.{In};
ghost use Rattle.osgi_world.specs.declared.problem.Problem.{Problem};
ghost use Rattle.osgi_resolver_decisions.specs.DecisionOf.{decision_of};
ghost use Rattle.osgi_resolver_path.specs.computed.Courses.{word_of};
ghost use Rattle.osgi_resolver_decisions.specs.computed.Known.{IsProblemIn, Knows};
ghost use Rattle.osgi_resolver_path.specs.computed.Moving.{IsLearnt};
ghost use Rattle.osgi_resolver_path.specs.computed.Placed.{ArePlaces};
ghost use Rattle.osgi_resolver_path.specs.computed.Views.{IsAt, decided_in, is_spatial, is_spatial_next};
ghost use Rattle.osgi_resolver_path.specs.Wires.{wired_by};

use crate::course::{Course, Mark};
use crate::step::Step;
use crate::wired::Wired;
use osgi_base::{List, RevisionId};
use osgi_candidates::Offers;
use osgi_resolver_decisions::{DecisionRef, Lists, is_of_space};
use std::alloc::{AllocError, Global};

// ---- decided members

/// Whether the decision is on an attachment, a bundle requirement or an import.
fn is_spatial(offers: &Offers, decision: DecisionRef) -> bool
    ensures spatial { result ≡ is_spatial offers.now.known (decision_of decision) }
{
    match decision {
        DecisionRef::Attach { .. } => true,
        DecisionRef::Choose { requirement, .. } | DecisionRef::Pick { requirement, .. } => {
            is_of_space(offers.known().requirement_namespace(requirement))
        }
    }
}

/// Whether the next decision is such a one. Such decisions come first among a member's: where the next one is none, the member
/// has none left.
fn is_spatial_next(offers: &Offers, course: &Course) -> bool
    ensures spatial { result ≡ is_spatial_next offers.now.known
        (slice_get course.now.queue (length course.now.marks.items)) }
{
    match course.next() {
        Some(decision) => is_spatial(offers, decision),
        None => false,
    }
}

/// Whether the member at this place is decided.
fn is_decided_at(lists: &Lists, course: &Course, place: usize, member: RevisionId) -> bool
    ensures decided { (P : Problem) → IsProblemIn lists.now.offers P → Knows lists.now member
        → IsAt P course.now → slice_get course.now.ids.items place ≡ Some member
        → Decides result (IsDecided P (decided_in course.now) member) }
{
    if place < course.last {
        return true;
    }
    if place == course.last {
        return !is_spatial_next(lists.offers(), course);
    }
    lists.is_free(member)
}

/// The place of a member.
fn place_of(course: &Course, member: RevisionId) -> Option<usize>
    requires placed { ArePlaces course.now.places course.now.ids.items }
    ensures place { (n : ℕ) → slice_get course.now.ids.items n ≡ Some member → result ≡ Some n }
{
    course.places.get(member.0).copied()
}

/// Whether the member is decided, which is found by its place.
pub fn is_decided(lists: &Lists, course: &Course, member: RevisionId) -> bool
    requires placed { ArePlaces course.now.places course.now.ids.items }
    ensures decided { (P : Problem) → IsProblemIn lists.now.offers P → Knows lists.now member
        → IsAt P course.now → In member course.now.ids.items
        → Decides result (IsDecided P (decided_in course.now) member) }
{
    match place_of(course, member) {
        Some(place) => is_decided_at(lists, course, place, member),
        None => false,
    }
}

/// The numbers of the members that have an attachment, a bundle requirement or an import left to decide. Those before the place of
/// the last are decided, and are not looked at.
pub fn undecided(alloc: Global, lists: &Lists, course: &Course) -> Result<Vec<u32>, AllocError>
    ensures undecided { IfOk result (λ list. (P : Problem) → IsProblemIn lists.now.offers P
        → IsLearnt lists.now course.now → IsAt P course.now → (n : ℕ) → In n list.items
        ↔ In (id n) (members P (decided_in course.now))
        × ¬ IsDecided P (decided_in course.now) (id n)) }
{
    let mut list = Vec::with_capacity(alloc, course.ids.len().saturating_sub(course.last))?;
    for place in course.last..course.ids.len() {
        let member = course.ids[place];
        if !is_decided_at(lists, course, place, member) {
            list.push(member.0)?;
        }
    }
    Ok(list)
}

// ---- wires

/// The wire of a step, if the step is a wire.
pub fn wired_by(step: Option<Step>) -> Option<Wired>
    ensures wired { option_to_list result ≡ wired_by step }
{
    match step {
        Some(Step::Wired { revision, wire }) => Some(Wired { revision, wire }),
        _ => None,
    }
}

impl Mark {
    /// The wire that the decision made, if it made one.
    pub fn wired(&self) -> Option<Wired>
        ensures wired { option_to_list result ≡ wired_by self.now.step }
    {
        wired_by(self.step)
    }
}

// ---- the word

/// The values of the marks.
pub fn word(alloc: Global, marks: &[Mark]) -> Result<List<u64>, AllocError>
    ensures word { IfOk result (λ list. list ≡ word_of (reverse marks.now)) }
{
    let mut word = List::new(alloc)?;
    for mark in marks {
        word.push(mark.value)?;
    }
    Ok(word)
}
