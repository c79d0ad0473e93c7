//! The members that a header makes: one for each path of each of its clauses.

ghost use Rattle.std.specs.Prelude.{◌≡◌, [], ◌∷◌, ◌++◌, ℕ, Bool, if◌then◌else◌, List, filter, map, IfOk, OnOk};
ghost use Rattle.osgi_header.specs.declared.clause.Clause.{Clause};
ghost use Rattle.osgi_world.specs.declared.manifest_fault.ManifestKind.{ManifestKind};
ghost use Rattle.osgi_clause.specs.Members.{AreMade};
ghost use Rattle.osgi_clause.specs.computed.Answers.{IsAdded, IsTemplate};
ghost use Rattle.osgi_clause.specs.Walks.{Walked};

use crate::fault::ClauseFault;
use osgi_base::{List, Text};
use osgi_header::{Clause, ClauseAt};
use osgi_world::ManifestKind;
use std::alloc::{AllocError, Global};

/// What a header makes of a clause.
pub trait ClauseReader {
    type Item: Drop;

    /// The faults of a clause in order, whatever clauses stand before it.
    ghost faults: { Clause → List (ManifestKind → Type 0) };

    /// Whether the clause makes anything.
    ghost takes: { Clause → Bool };

    /// What the clause makes of one of its paths.
    ghost makes: { Clause → List ℕ → Self.Item → Type 0 };

    /// The item with this path.
    ghost named: { Self.Item → List ℕ → Self.Item };

    /// What the clause makes of each of its paths, for which there is no path yet; or its first fault.
    fn template(
        alloc: Global,
        clause: &Clause,
    ) -> Result<Result<Self::Item, ManifestKind>, AllocError>
        ensures template { IfOk result (IsTemplate (faults clause.now) (makes clause.now) named) };

    fn takes(clause: &Clause) -> bool
        ensures takes { result ≡ takes clause.now };

    fn named(alloc: Global, template: &Self::Item, path: &Text) -> Result<Self::Item, AllocError>
        ensures named { IfOk result (λ item. item ≡ named template.now path.now) };
}

/// Adds what the clause makes of its paths.
fn add_paths<R: ClauseReader>(
    alloc: Global,
    items: &mut List<R::Item>,
    template: &R::Item,
    paths: &[Text],
) -> Result<(), AllocError>
    ensures added { OnOk result (items.new ≡ items.old ++ map (R.named template.now) paths.now) }
{
    for path in paths {
        items.push(R::named(alloc, template, path)?)?;
    }
    Ok(())
}

/// Adds what a clause without a fault makes, if it makes anything.
fn add_made<R: ClauseReader>(
    alloc: Global,
    items: &mut List<R::Item>,
    template: &R::Item,
    clause: &Clause,
) -> Result<(), AllocError>
    ensures added { OnOk result (items.new ≡ items.old ++ (if R.takes clause.now then map (R.named template.now) clause.now.paths else [])) }
{
    if !R::takes(clause) {
        return Ok(());
    }
    add_paths::<R>(alloc, items, template, clause.paths.items())
}

/// Adds what a clause makes; or its first fault.
fn add_clause<R: ClauseReader>(
    alloc: Global,
    items: &mut List<R::Item>,
    clause: &Clause,
) -> Result<Option<ManifestKind>, AllocError>
    ensures added { IfOk result (IsAdded (R.faults clause.now) (AreMade R.makes (filter R.takes (clause.now ∷ []))) items.old items.new) }
{
    match R::template(alloc, clause)? {
        Ok(template) => {
            add_made::<R>(alloc, items, &template, clause)?;
            Ok(None)
        }
        Err(kind) => Ok(Some(kind)),
    }
}

/// What the clauses make, in order; or the first fault of the first faulty one.
pub fn members<R: ClauseReader>(
    alloc: Global,
    clauses: &[ClauseAt],
) -> Result<Result<List<R::Item>, ClauseFault>, AllocError>
    ensures walked { IfOk result (Walked (λ before. R.faults) (λ all. AreMade R.makes (filter R.takes all)) clauses.now) }
{
    let mut items = List::new(alloc)?;
    for item in clauses {
        if let Some(kind) = add_clause::<R>(alloc, &mut items, &item.clause)? {
            let at = item.at;
            return Ok(Err(ClauseFault { kind, at }));
        }
    }
    Ok(Ok(items))
}
