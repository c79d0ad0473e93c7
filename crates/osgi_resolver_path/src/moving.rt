//! A path that is one decision longer, or shorter.

ghost use Rattle.std.specs.Prelude.{◌≡◌, ◌<◌, ◌∷◌, [], ◌++◌, IfOk, MatchOption, OnErr, OnOk, length, reverse};
ghost use Rattle.osgi_base.specs.declared.ids.RevisionId.{RevisionId};
ghost use Rattle.osgi_world.specs.declared.problem.Problem.{Problem};
ghost use Rattle.osgi_resolver_path.specs.computed.Courses.{IsRight, lists_of, steps_of, taken_back};
ghost use Rattle.osgi_resolver_decisions.specs.computed.Known.{IsProblemIn};
ghost use Rattle.osgi_resolver_path.specs.computed.Moving.{IsLearnt, IsLonger, IsMarkOf, IsSpaceOf};
ghost use Rattle.osgi_resolver_path.specs.computed.Nexts.{IsSameCourse};
ghost use Rattle.osgi_resolver_path.specs.computed.Placed.{ArePlaces};
ghost use Rattle.osgi_resolver_path.specs.declared.course.Mark.{Mark};

use crate::course::{Course, Mark};
use crate::growing::{first_of, joining_of};
use crate::linked::Linked;
use crate::moves::{decide_with, learn_new};
use crate::queue::Queue;
use crate::step::step_of;
use osgi_base::{NumberMap, RevisionId};
use osgi_resolver_decisions::{DecisionRef, Lists};
use std::alloc::{AllocError, Global};

/// The mark of a decision that is made now.
fn mark_of(lists: &Lists, course: &Course, decision: DecisionRef, value: u64) -> Mark
    ensures mark { IsMarkOf lists.now course.now decision value result }
{
    Mark {
        decision,
        value,
        step: step_of(lists, decision, value),
        ids: course.ids.len(),
        queue: course.queue.len(),
        last: course.last,
    }
}

/// Makes the next decision. If memory runs out, the course and the wirings stay as they are.
pub fn longer(
    alloc: Global,
    lists: &mut Lists,
    spaces: &mut Linked,
    course: &mut Course,
    value: u64,
) -> Result<(), AllocError>
    requires spaces { IsSpaceOf lists.old.offers course.old spaces.old }
    requires learnt { IsLearnt lists.old course.old }
    requires placed { ArePlaces course.old.places course.old.ids.items }
    requires next { length course.old.marks.items < length course.old.queue }
    requires last_in { course.old.last < length course.old.ids.items }
    ensures offers { lists.new.offers ≡ lists.old.offers }
    ensures learnt { IsLearnt lists.new course.new }
    ensures placed { ArePlaces course.new.places course.new.ids.items }
    ensures longer { OnOk result
        (IsLonger lists.old.offers course.old course.new spaces.old spaces.new value) }
    ensures spaces_unchanged { OnErr result (spaces.new ≡ spaces.old) }
    ensures unchanged { OnErr result (IsSameCourse course.old course.new) }
{
    let decision = course.next().unwrap();
    let mark = mark_of(lists, course, decision, value);
    let joining = joining_of(lists.offers(), course, mark.step);
    learn_new(alloc, lists, mark.step, joining)?;
    decide_with(alloc, lists, spaces, course, mark, joining)
}

/// Takes the last decision back, if there is one, and gives its mark.
pub fn shorter(spaces: &mut Linked, course: &mut Course) -> Option<Mark>
    requires steps { spaces.old.steps ≡ steps_of (reverse course.old.marks.items) }
    ensures places { course.new.places ≡ course.old.places }
    ensures taken { MatchOption result ((course.old.marks.items ≡ [])
        × ((spaces.new ≡ spaces.old) × IsSameCourse course.old course.new))
        (λ (mark : Mark). (course.old.marks.items ≡ course.new.marks.items ++ mark ∷ [])
        × ((lists_of course.new ≡ taken_back mark (lists_of course.old))
        × (spaces.new ≡ record spaces.old { steps = steps_of (reverse course.new.marks.items) }))) }
{
    let Some(mark) = course.marks.pop() else {
        return None;
    };
    if mark.step.is_some() {
        spaces.undo();
    }
    course.ids.truncate(mark.ids);
    course.queue.truncate(mark.queue);
    course.last = mark.last;
    Some(mark)
}

/// The course of the empty word.
pub fn begin(alloc: Global, lists: &mut Lists, root: RevisionId) -> Result<Course, AllocError>
    ensures offers { lists.new.offers ≡ lists.old.offers }
    ensures learnt { IfOk result (IsLearnt lists.new) }
    ensures placed { IfOk result (λ course. ArePlaces course.places course.ids.items) }
    ensures marks { IfOk result (λ course. course.marks.items ≡ []) }
    ensures begins { IfOk result (λ course. (P : Problem) → IsProblemIn lists.old.offers P
        → P.root ≡ root → IsRight P [] (lists_of course)) }
{
    lists.learn(alloc, root)?;
    let first = first_of(alloc, lists, root)?;
    let mut places = NumberMap::new(alloc);
    places.insert(root.0, 0)?;
    let mut ids = Vec::new(alloc);
    ids.push(root)?;
    Ok(Course {
        ids,
        places,
        queue: Queue::of(alloc, first),
        last: 0,
        marks: Vec::new(alloc),
    })
}
