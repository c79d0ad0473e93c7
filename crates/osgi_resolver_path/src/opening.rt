//! The decisions that come next where all those that were due are made.

ghost use Rattle.std.specs.Prelude.{◌≡◌, ◌+◌, ◌<◌, ◌++◌, List, IfOk, length};
ghost use Rattle.osgi_world.specs.Decisions as decisions;
ghost use Rattle.osgi_world.specs.Decisions.{Made};
ghost use Rattle.osgi_world.specs.DueDecisions.{members};
ghost use Rattle.osgi_world.specs.declared.problem.Problem.{Problem};
ghost use Rattle.osgi_resolver_theory.specs.States.{State};
ghost use Rattle.osgi_resolver_decisions.specs.computed.Asks.{decisions_in};
ghost use Rattle.osgi_resolver_decisions.specs.computed.Known.{IsProblemIn, KnowsMore};
ghost use Rattle.osgi_resolver_path.specs.computed.Openings.{IsOpened, Waits};

use crate::growing::first_of;
use osgi_base::RevisionId;
use osgi_resolver_decisions::{Decisions, Lists};
use std::alloc::{AllocError, Global};

/// Decisions that become due, and the place of the last member whose decisions are in the queue then.
#[derive(Drop)]
pub struct More {
    pub decisions: Decisions,
    pub last: usize,
}

/// Opens one member after another until a decision is due or none is left.
pub fn open(
    alloc: Global,
    lists: &mut Lists,
    ids: &[RevisionId],
    more: More,
) -> Result<More, AllocError>
    requires last_in { more.last < length ids.now }
    ensures nothing_lost { KnowsMore lists.old lists.new }
    ensures opened { IfOk result (λ r. (P : Problem) (D : Made) (qs : List decisions.Decision)
        → IsProblemIn lists.old.offers P → State P D → ids.now ≡ members P D
        → length qs ≡ length D →
        IsOpened P D ids.now (qs ++ decisions_in more.decisions) more.last
        → IsOpened P D ids.now (qs ++ decisions_in r.decisions) r.last) }
    ensures waits { IfOk result (λ r. Waits r (length ids.now)) }
{
    let More {
        mut decisions,
        mut last,
    } = more;
    'members: while decisions.items().is_empty() && last + 1 < ids.len() {
        last += 1;
        decisions = first_of(alloc, lists, ids[last])?;
    }
    Ok(More { decisions, last })
}
