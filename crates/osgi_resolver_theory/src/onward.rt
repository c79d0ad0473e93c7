//! What one decision more can make hopeless, where a word is not hopeless. The test of `osgi_resolver_hopeless` for a word with
//! one decision more rests on it. Each function here is a fact of the theory of choice words; it does nothing.

ghost use Rattle.osgi_world.specs.Candidates.{IsProblem};
ghost use Rattle.osgi_world.specs.declared.problem.Problem.{Problem};
ghost use Rattle.osgi_resolver_theory.specs.OnwardFacts.{ClashesLeadToHost, JoinedLack, OffersEndWithHost, OnlyNewReasons, OnlyTheseSettle, OnlyTouchedAreStuck, QuietWhileUndecided};

/// A word that is not hopeless is so with one decision more exactly for one of the reasons that the decision can give.
pub fn only_new_reasons()
    ensures { (P : Problem) → IsProblem P → OnlyNewReasons P }
{}

/// A member that is newly stuck with one decision more is the host of the decision, or has joined by it.
pub fn only_touched_are_stuck()
    ensures { (P : Problem) → IsProblem P → OnlyTouchedAreStuck P }
{}

/// What settles by a decision has joined by it, or is the decision's host or reaches it, where the host is decided now and was
/// not before.
pub fn settles_anew()
    ensures { (P : Problem) → IsProblem P → OnlyTheseSettle P }
{}

/// While the host of the decision is not decided, or where it was decided before, only what the decision touches, newly uses or
/// adds is a reason.
pub fn quiet_while_undecided()
    ensures { (P : Problem) → IsProblem P → QuietWhileUndecided P }
{}

/// A new clash of a constraint that comes from settled revisions alone is at a revision that leads to the decision's host, which
/// is decided now and was not before.
pub fn clashes_lead_to_host()
    ensures { (P : Problem) → IsProblem P → ClashesLeadToHost P }
{}

/// A member's wire to a settled provider that newly does not have the capability on offer is one that the decision adds, or its
/// provider settles with the decision's host.
pub fn offers_end_with_host()
    ensures { (P : Problem) → IsProblem P → OffersEndWithHost P }
{}

/// What joins by a decision is stuck only where a requirement of its own has no candidate.
pub fn joined_lack()
    ensures { (P : Problem) → IsProblem P → JoinedLack P }
{}
