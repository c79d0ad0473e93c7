//! The implied constraints of a revision, by the names of packages.

ghost use Rattle.std.specs.Prelude.{◌≡◌, ◌<◌, ◌↔◌, List, All, Any, IfOk, IsTrue, length};
ghost use Rattle.std.specs.BTreeSet.{contains};
ghost use Rattle.osgi_space_sources.specs.declared.given.Given.{Given};
ghost use Rattle.osgi_space.specs.ImpliedOrder.{AreInOrder, implied_cmp};
ghost use Rattle.osgi_space.specs.computed.NamedPairs.{named_pair};
ghost use Rattle.osgi_space.specs.declared.implied_constraints.Implied.{Implied};
ghost use Rattle.osgi_space_rows.specs.Worlds.{AreRowsIn};
ghost use Rattle.osgi_world.specs.Lists.{In};
ghost use Rattle.osgi_world.specs.Sources as relation;
ghost use Rattle.osgi_world.specs.declared.wiring.Wiring.{Wiring};

use crate::first::name_bytes;
use osgi_base::{List, RevisionId, Text};
use osgi_space_rows::{Names, WorldRows};
use osgi_space_sources::{Among, Given, constraints_of};
use std::alloc::{AllocError, Global};
use std::collections::BTreeSet;

/// An implied constraint: a package, and the revision that sees it.
#[derive(Drop, PartialEq, Eq, PartialOrd, Ord)]
pub struct Implied {
    pub seen_by: RevisionId,
    pub package: Text,
}

/// The pair by its package's name.
fn named(alloc: Global, names: &Names, pair: Given) -> Result<Implied, AllocError>
    requires named { pair.package < length names.now }
    ensures implied { IfOk result (λ implied. implied ≡ named_pair names.now pair) }
{
    Ok(Implied {
        seen_by: RevisionId(pair.source),
        package: Text::of(alloc, name_bytes(names, pair.package))?,
    })
}

fn named_pairs(
    alloc: Global,
    names: &Names,
    pairs: &[Given],
) -> Result<BTreeSet<Implied>, AllocError>
    requires named { All (λ (g : Given). g.package < length names.now) pairs.now }
    ensures pairs { IfOk result (λ set. (v : Implied) → IsTrue (contains implied_cmp set v)
        ↔ Any (λ (g : Given). named_pair names.now g ≡ v) pairs.now) }
{
    let mut set = BTreeSet::new(alloc);
    for pair in pairs {
        set.insert(named(alloc, names, *pair)?)?;
    }
    Ok(set)
}

fn in_order(alloc: Global, set: BTreeSet<Implied>) -> Result<Vec<Implied>, AllocError>
    ensures same { IfOk result (λ list. list.items ≡ set.keys) }
    ensures ordered { IfOk result (λ list. AreInOrder list.items) }
{
    set.into_iter().collect(alloc)
}

/// The implied constraints of the revision, in order, in the wirings whose rows these are.
pub fn implied_in(
    alloc: Global,
    rows: &WorldRows,
    revision: RevisionId,
) -> Result<List<Implied>, AllocError>
    ensures ordered { IfOk result AreInOrder }
    ensures implied { IfOk result (λ list. (W : List Wiring) → AreRowsIn rows.now W → (v : Implied)
        → In v list
        ↔ relation.Implied rows.now.known W (λ x. Unit {0}) revision v.seen_by v.package) }
{
    let found = constraints_of(alloc, rows.rows(), Among::All, revision.0)?;
    let pairs = named_pairs(alloc, rows.names(), found.items())?;
    Ok(List::from(in_order(alloc, pairs)?))
}
