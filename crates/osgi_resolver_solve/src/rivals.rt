//! Candidates that a member rules out: those of its rivals, with which two singletons of one symbolic name would be in use.

ghost use Rattle.std.specs.Prelude.{◌≡◌, IsTrue};
ghost use Rattle.osgi_resolver_solve.specs.computed.Layers.{TakesDoomed, TakesRivals};
ghost use Rattle.osgi_world.specs.Consistency.{AreRivals};
ghost use Rattle.osgi_world.specs.Lookups.{is_current, is_singleton, symbolic_name};

use osgi_base::RevisionId;
use osgi_candidate_rows::CandidateRows;
use osgi_lookup::KnownIndex;
use osgi_resolver_path::Path;

fn is_current_singleton(known: &KnownIndex, revision: RevisionId) -> bool
    ensures singleton { IsTrue result → IsTrue (is_current known.now revision)
        × IsTrue (is_singleton known.now revision) }
{
    known.is_current(revision) && known.is_singleton(revision)
}

/// Whether they are two, and both are current singletons. If so they are rivals where they have one symbolic name.
fn are_two_singletons(known: &KnownIndex, one: RevisionId, other: RevisionId) -> bool
    ensures rivals { IsTrue result → symbolic_name known.now other ≡ symbolic_name known.now one
        → AreRivals known.now other one }
{
    if other.0 == one.0 {
        return false;
    }
    if !is_current_singleton(known, one) {
        return false;
    }
    is_current_singleton(known, other)
}

/// Takes out the candidates of the member's rivals; gives how many.
pub fn take_out_rivals(path: &Path, rows: &mut CandidateRows, member: RevisionId) -> usize
    ensures taken { TakesRivals path.now.world.known member rows.old result rows.new }
{
    let known = path.offers().known();
    let Some(says) = known.revision(member) else {
        return 0;
    };
    if !says.singleton {
        return 0;
    }
    let mut count = 0;
    for other in path.offers().named(&says.name) {
        if are_two_singletons(known, member, *other) {
            count = rows.take_out(*other, count);
        }
    }
    count
}

/// Takes out the candidates of the rivals of who joined by the last decision, if anyone did; gives how many.
pub fn take_out_by_last(path: &Path, rows: &mut CandidateRows) -> usize
    ensures taken { TakesDoomed path.now rows.old result rows.new }
{
    let Some(last) = path.last() else {
        return 0;
    };
    match last.joined {
        Some(member) => take_out_rivals(path, rows, member),
        None => 0,
    }
}
