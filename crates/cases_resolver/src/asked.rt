//! Resolves whose wirings are put in force.

ghost use Rattle.std.specs.Prelude.{◌≡◌, None};
ghost use Rattle.osgi_wiring.specs.States.{MayExtend};
ghost use Rattle.osgi_world.specs.Candidates.{IsUnresolved};

use crate::shown::{push_cause, push_found};
use osgi_base::{List, RevisionId};
use osgi_resolver::{Answer, IndexedWirings};
use osgi_wiring::Wirings;
use osgi_world::Wiring;
use std::alloc::AllocError;
use std::fmt::Write;

/// Why a revision cannot be resolved, if it cannot.
pub fn obstacle(wirings: &Wirings, root: RevisionId) -> Option<&'static str>
    ensures unresolved { result ≡ None → IsUnresolved wirings.now.world.known wirings.now.world.wirings root }
{
    let Some(known) = wirings.known(root) else {
        return Some("not known");
    };
    if !known.current {
        return Some("not current");
    }
    if known.revision.get().host.is_some() {
        return Some("a fragment");
    }
    if wirings.wiring(root).is_some() {
        return Some("in force");
    }
    None
}

/// Puts wirings in force, and says whether there was memory for that.
fn extend(
    out: &mut String,
    wirings: &mut IndexedWirings,
    added: List<Wiring>,
) -> Result<(), AllocError>
    requires extends { MayExtend wirings.old.world added }
{
    match wirings.extend(added) {
        Ok(()) => out.push_str(": taken"),
        Err(AllocError) => out.push_str(": not taken"),
    }
}

/// Adds how a revision that may be resolved is resolved, and puts in force what is found.
fn push_answer(
    out: &mut String,
    wirings: &mut IndexedWirings,
    root: RevisionId,
    budget: u32,
) -> Result<(), AllocError>
    requires unresolved { IsUnresolved wirings.old.world.known wirings.old.world.wirings root }
{
    match wirings.resolve(root, u64::from(budget))? {
        Answer::Found { word, added } => {
            push_found(out, word.items(), added.items())?;
            extend(out, wirings, added)
        }
        Answer::NoWord(cause) => push_cause(out, wirings.wirings(), cause),
        Answer::Spent { visited } => write!(out, "spent {visited}"),
    }
}

/// Adds how a revision is resolved, or why it cannot be.
pub fn push_resolved(
    out: &mut String,
    wirings: &mut IndexedWirings,
    root: RevisionId,
    budget: u32,
) -> Result<(), AllocError> {
    match obstacle(wirings.wirings(), root) {
        Some(reason) => out.push_str(reason),
        None => push_answer(out, wirings, root, budget),
    }
}
