//! The resolve of one revision in a world.

ghost use Rattle.std.specs.Prelude.{◌-◌, ◌^◌, ◌<◌, IfOk};
ghost use Rattle.osgi_world.specs.Candidates.{IsResolvable};
ghost use Rattle.osgi_candidates.specs.Following.{Covers};
ghost use Rattle.osgi_space.specs.Kept.{FollowsRows};
ghost use Rattle.osgi_resolver.specs.computed.Following.{FollowsWorld};
ghost use Rattle.osgi_resolver.specs.Answers.{IsAnswerTo};

use crate::answer::Answer;
use crate::answering::answer_of;
use crate::index::Index;
use crate::walk::Walk;
use osgi_base::RevisionId;
use osgi_candidates::{OfferIndex, Offers};
use osgi_resolver_path::Path;
use osgi_resolver_search::search;
use osgi_space::{DisputedRows, KeptRows};
use osgi_world::World;
use std::alloc::{AllocError, Global};
use std::mem;

/// Resolves the root: searches for the first good choice of its wires, of those of the revisions that these pull in, and of the
/// fragments that are attached. The budget limits the effort: how many words that are not hopeless come before the first good one
/// or, where none is good, how many there are.
pub fn resolve(
    alloc: Global,
    world: &World,
    root: RevisionId,
    budget: u64,
) -> Result<Answer, AllocError>
    requires resolvable { IsResolvable world.now root }
    requires budget { budget < 2 ^ 64 - 1 }
    ensures answer { IfOk result (IsAnswerTo world.now root budget) }
{
    let mut index = Index::new(alloc);
    resolve_with(alloc, world, &mut index, root, budget)
}

/// Resolves the root with what was kept of the world, and keeps what is found out of it. If memory runs out, less may be kept.
pub fn resolve_with(
    alloc: Global,
    world: &World,
    index: &mut Index,
    root: RevisionId,
    budget: u64,
) -> Result<Answer, AllocError>
    requires resolvable { IsResolvable world.now root }
    requires budget { budget < 2 ^ 64 - 1 }
    requires follows { FollowsWorld index.old world.now }
    ensures answer { IfOk result (IsAnswerTo world.now root budget) }
    ensures follows { FollowsWorld index.new world.now }
{
    let Index { offers, rows } = index;
    offers.follow(alloc, world)?;
    let kept = mem::replace(rows, KeptRows::new(alloc));
    let (answer, kept) = answer_over(alloc, world, offers, kept, root, budget)?;
    *rows = kept;
    Ok(answer)
}

/// Searches over the offers and the rows of the world, and gives the rows back.
fn answer_over(
    alloc: Global,
    world: &World,
    offers: &OfferIndex,
    kept: KeptRows,
    root: RevisionId,
    budget: u64,
) -> Result<(Answer, KeptRows), AllocError>
    requires resolvable { IsResolvable world.now root }
    requires budget { budget < 2 ^ 64 - 1 }
    requires covers { Covers offers.now world.now.known world.now.wirings }
    requires follows { FollowsRows kept world.now.known world.now.wirings }
    ensures answer { IfOk result (λ both. IsAnswerTo world.now root budget both.0) }
    ensures follows { IfOk result (λ both. FollowsRows both.1 world.now.known world.now.wirings) }
{
    let known = world.known.items();
    let wirings = world.wirings.items();
    let rows = DisputedRows::resume(alloc, kept, known, wirings)?;
    let offers = Offers::new(alloc, world, offers)?;
    let path = Path::new(alloc, world, root, offers, rows)?;
    let mut walk = Walk { alloc, path };
    let outcome = search(&mut walk, budget)?;
    let answer = answer_of(alloc, &walk.path, outcome)?;
    let Walk { alloc: _, path } = walk;
    Ok((answer, path.into_rows().keep(wirings)))
}
