//! The last decision of a search, with what it changed.

ghost use Rattle.std.specs.Prelude.{◌≡◌, [], MatchOption, slice_get};
ghost use Rattle.std.specs.Option.{option_to_list};
ghost use Rattle.osgi_resolver_path.specs.computed.Lasts.{IsLastOf, fragment_by};

use crate::course::Course;
use crate::step::Step;
use crate::views::wired_by;
use crate::wired::Wired;
use osgi_base::RevisionId;
use osgi_resolver_decisions::DecisionRef;

/// The last decision of a search: what it is, its value, and what it changed.
#[derive(Clone, Copy, PartialEq, Eq)]
pub struct Last {
    pub decision: DecisionRef,
    pub value: u64,
    /// The wire that it made.
    pub wired: Option<Wired>,
    /// The fragment that it attached to the host.
    pub fragment: Option<RevisionId>,
    /// Who became a member by it.
    pub joined: Option<RevisionId>,
}

/// The fragment of a step, if it attaches one.
fn fragment_by(step: Option<Step>) -> Option<RevisionId>
    ensures fragment { option_to_list result ≡ fragment_by step }
{
    match step {
        Some(Step::Attached { fragment, .. }) => Some(fragment),
        _ => None,
    }
}

/// The member at this place, if there is one.
fn member_at(course: &Course, place: usize) -> Option<RevisionId>
    ensures member { result ≡ slice_get course.now.ids.items place }
{
    course.ids.get(place).copied()
}

/// The last decision of the course; None where none is made. Who joined by it stands where the members ended before it.
pub fn last_of(course: &Course) -> Option<Last>
    ensures last { MatchOption result (course.now.marks.items ≡ []) (IsLastOf course.now) }
{
    let mark = course.marks.last()?;
    Some(Last {
        decision: mark.decision,
        value: mark.value,
        wired: wired_by(mark.step),
        fragment: fragment_by(mark.step),
        joined: member_at(course, mark.ids),
    })
}
