//! What one decision more changes: who joins, what becomes due, and what is to be known of it.

ghost use Rattle.std.specs.Prelude.{◌≡◌, ◌+◌, ◌<◌, ◌∷◌, [], ◌++◌, All, IfOk, IsTrue, List, OnErr, OnOk, Some, length, reverse};
ghost use Rattle.std.specs.Option.{option_to_list};
ghost use Rattle.osgi_base.specs.declared.ids.RevisionId.{RevisionId};
ghost use Rattle.osgi_world.specs.Decisions as decisions;
ghost use Rattle.osgi_world.specs.Decisions.{Made, attached};
ghost use Rattle.osgi_world.specs.Lookups.{is_current};
ghost use Rattle.osgi_world.specs.declared.problem.Problem.{Problem};
ghost use Rattle.osgi_resolver_decisions.specs.computed.Asks.{asks_of, decisions_in};
ghost use Rattle.osgi_resolver_decisions.specs.DecisionOf.{decision_of};
ghost use Rattle.osgi_resolver_path.specs.computed.Afters.{IsAskedAfter, owners_with};
ghost use Rattle.osgi_resolver_path.specs.computed.Attached.{AreAttached};
ghost use Rattle.osgi_resolver_path.specs.computed.Courses.{IsRight, lists_of};
ghost use Rattle.osgi_resolver_path.specs.computed.Moving.{IsSpaceOf};
ghost use Rattle.osgi_resolver_path.specs.computed.Placed.{ArePlaces, IsNoMember};
ghost use Rattle.osgi_resolver_path.specs.computed.Nexts.{AreRowsBefore, IsDecidedBy, IsDecidedWith, IsNextOf, IsOpenedBy, IsSameCourse};
ghost use Rattle.osgi_resolver_path.specs.computed.Steps.{steps_in};
ghost use Rattle.osgi_resolver_decisions.specs.computed.Known.{IsProblemIn, Knows, KnowsMore};

use crate::attached::owners_of;
use crate::course::{Course, Mark};
use crate::growing::learn_all;
use crate::linked::Linked;
use crate::opening::{More, open};
use crate::step::Step;
use osgi_base::RevisionId;
use osgi_resolver_decisions::{DecisionRef, Decisions, Lists, asks_of};
use osgi_space_rows::Rows;
use std::alloc::{AllocError, Global};

/// The decisions of the requirements of a host's payload, once the decision on the last of its fragments has this value.
fn asks_with(
    alloc: Global,
    lists: &mut Lists,
    rows: &Rows,
    host: RevisionId,
    fragment: RevisionId,
    value: u64,
) -> Result<Decisions, AllocError>
    ensures nothing_lost { KnowsMore lists.old lists.new }
    ensures asks { IfOk result (λ asks. (P : Problem) (D : Made) → IsProblemIn lists.old.offers P
        → AreAttached rows.now D host →
        All (λ (o : RevisionId). IsTrue (is_current P.world.known o))
        (owners_with P D host fragment value)
        → decisions_in asks ≡ asks_of P host (owners_with P D host fragment value)) }
{
    let owners = owners_of(alloc, lists.offers(), rows, host, fragment, value)?;
    learn_all(alloc, lists, owners.as_slice())?;
    let asks = asks_of(alloc, lists, host, owners.as_slice())?;
    Ok(Decisions::of(alloc, asks)?)
}

/// What a decision makes due by itself: after the one on a host's last fragment, the decisions of the requirements of its
/// payload. The rows are those without this decision.
pub fn asks_after(
    alloc: Global,
    lists: &mut Lists,
    rows: &Rows,
    decision: DecisionRef,
    value: u64,
) -> Result<Decisions, AllocError>
    ensures nothing_lost { KnowsMore lists.old lists.new }
    ensures asks { IfOk result (λ asks. (P : Problem) (D : Made) → IsProblemIn lists.old.offers P
        → AreAttached rows.now D (decisions.host (decision_of decision))
        → IsAskedAfter P D (decision_of decision) value (decisions_in asks)) }
{
    match decision {
        DecisionRef::Attach { host, fragment } => {
            Ok(asks_with(alloc, lists, rows, host, fragment, value)?)
        }
        DecisionRef::Choose { .. } | DecisionRef::Pick { .. } => Ok(Decisions::none()),
    }
}

/// Adds the step to the wirings of a search. If memory runs out, nothing changes.
fn take(spaces: &mut Linked, step: Option<Step>) -> Result<(), AllocError>
    ensures added { OnOk result (spaces.new
        ≡ record spaces.old { steps = steps_in step ++ spaces.old.steps }) }
    ensures unchanged { OnErr result (spaces.new ≡ spaces.old) }
{
    match step {
        None => Ok(()),
        Some(Step::Attached { host, fragment }) => spaces.attach(host, fragment),
        Some(Step::Wired { revision, wire }) => spaces.wire(revision, wire),
    }
}

/// Asks for the candidates of a fragment that is attached.
fn learn_attached(alloc: Global, lists: &mut Lists, step: Option<Step>) -> Result<(), AllocError>
    ensures nothing_lost { KnowsMore lists.old lists.new }
    ensures known { OnOk result ((h f : RevisionId) → steps_in step ≡ attached h f ∷ []
        → Knows lists.new f) }
{
    if let Some(Step::Attached { fragment, .. }) = step {
        lists.learn(alloc, fragment)?;
    }
    Ok(())
}

/// Asks for the candidates of who joins.
fn learn_joining(
    alloc: Global,
    lists: &mut Lists,
    joining: Option<RevisionId>,
) -> Result<(), AllocError>
    ensures nothing_lost { KnowsMore lists.old lists.new }
    ensures known { OnOk result ((r : RevisionId) → joining ≡ Some r → Knows lists.new r) }
{
    if let Some(revision) = joining {
        lists.learn(alloc, revision)?;
    }
    Ok(())
}

/// The decisions that become due, and how far members are opened then. The rows are those without this decision.
fn more_after(
    alloc: Global,
    lists: &mut Lists,
    rows: &Rows,
    course: &Course,
    decision: DecisionRef,
    value: u64,
) -> Result<More, AllocError>
    requires rows { AreRowsBefore rows.now lists.old.offers course.now decision value }
    requires last_in { course.now.last < length course.now.ids.items }
    ensures nothing_lost { KnowsMore lists.old lists.new }
    ensures more { IfOk result (λ more. (P : Problem) (ids : List RevisionId)
        → IsProblemIn lists.old.offers P
        → IsRight P (reverse course.now.marks.items) (record (lists_of course.now) { ids = ids }) →
        IsNextOf P course.now ids decision value → IsOpenedBy P course.now decision value more) }
{
    if course.marks.len() + 1 < course.queue.len() {
        return Ok(More {
            decisions: Decisions::none(),
            last: course.last,
        });
    }
    let decisions = asks_after(alloc, lists, rows, decision, value)?;
    let more = More {
        decisions,
        last: course.last,
    };
    Ok(open(alloc, lists, course.ids.as_slice(), more)?)
}

/// Makes the decision, where who joins is in the course already. If memory runs out, the course and the wirings stay as they are.
fn decide(
    alloc: Global,
    lists: &mut Lists,
    spaces: &mut Linked,
    course: &mut Course,
    mark: Mark,
) -> Result<(), AllocError>
    requires spaces { IsSpaceOf lists.old.offers course.old spaces.old }
    requires last_in { course.old.last < length course.old.ids.items }
    ensures nothing_lost { KnowsMore lists.old lists.new }
    ensures spaces { OnOk result (spaces.new
        ≡ record spaces.old { steps = steps_in mark.step ++ spaces.old.steps }) }
    ensures marks { OnOk result (course.new.marks.items ≡ course.old.marks.items ++ mark ∷ []) }
    ensures decided { OnOk result (IsDecidedBy lists.old.offers course.old course.new mark) }
    ensures members { (course.new.ids.items ≡ course.old.ids.items)
        × (course.new.places ≡ course.old.places) }
    ensures spaces_unchanged { OnErr result (spaces.new ≡ spaces.old) }
    ensures unchanged { OnErr result (IsSameCourse course.old course.new) }
{
    let rows = spaces.rows().rows();
    let more = more_after(alloc, lists, rows, course, mark.decision, mark.value)?;
    course.marks.reserve(1)?;
    let count = course.queue.len();
    course.queue.push(more.decisions)?;
    if let Err(error) = take(spaces, mark.step) {
        course.queue.truncate(count);
        return Err(error);
    }
    course.marks.push_reserved(mark);
    course.last = more.last;
    Ok(())
}

/// Lets a revision join the members, if one does.
fn join(course: &mut Course, joining: Option<RevisionId>) -> Result<(), AllocError>
    requires new { IsNoMember joining course.old.ids.items }
    requires placed { ArePlaces course.old.places course.old.ids.items }
    ensures placed { ArePlaces course.new.places course.new.ids.items }
    ensures joined { OnOk result (lists_of course.new
        ≡ record (lists_of course.old) { ids = course.old.ids.items ++ option_to_list joining }) }
    ensures marks { course.new.marks.items ≡ course.old.marks.items }
    ensures unchanged { OnErr result (IsSameCourse course.old course.new) }
{
    if let Some(revision) = joining {
        course.places.insert(revision.0, course.ids.len())?;
        course.ids.push(revision)?;
    }
    Ok(())
}

/// Asks for the candidates of a fragment that is attached, and of who joins.
pub fn learn_new(
    alloc: Global,
    lists: &mut Lists,
    step: Option<Step>,
    joining: Option<RevisionId>,
) -> Result<(), AllocError>
    ensures nothing_lost { KnowsMore lists.old lists.new }
    ensures attached { OnOk result ((h f : RevisionId) → steps_in step ≡ attached h f ∷ []
        → Knows lists.new f) }
    ensures joined { OnOk result ((r : RevisionId) → joining ≡ Some r → Knows lists.new r) }
{
    learn_attached(alloc, lists, step)?;
    learn_joining(alloc, lists, joining)?;
    Ok(())
}

/// Makes the decision of a mark with who joins by it. If memory runs out, the course and the wirings stay as they are.
pub fn decide_with(
    alloc: Global,
    lists: &mut Lists,
    spaces: &mut Linked,
    course: &mut Course,
    mark: Mark,
    joining: Option<RevisionId>,
) -> Result<(), AllocError>
    requires spaces { IsSpaceOf lists.old.offers course.old spaces.old }
    requires new { IsNoMember joining course.old.ids.items }
    requires placed { ArePlaces course.old.places course.old.ids.items }
    requires last_in { course.old.last < length course.old.ids.items }
    ensures nothing_lost { KnowsMore lists.old lists.new }
    ensures placed { ArePlaces course.new.places course.new.ids.items }
    ensures spaces { OnOk result (spaces.new
        ≡ record spaces.old { steps = steps_in mark.step ++ spaces.old.steps }) }
    ensures marks { OnOk result (course.new.marks.items ≡ course.old.marks.items ++ mark ∷ []) }
    ensures decided { OnOk result
        (IsDecidedWith lists.old.offers course.old course.new mark joining) }
    ensures spaces_unchanged { OnErr result (spaces.new ≡ spaces.old) }
    ensures unchanged { OnErr result (IsSameCourse course.old course.new) }
{
    let count = course.ids.len();
    join(course, joining)?;
    let decided = decide(alloc, lists, spaces, course, mark);
    if decided.is_err() {
        course.ids.truncate(count);
    }
    decided
}
