//! The symbolic name of a bundle, and what stands beside it.

ghost use Rattle.std.specs.Prelude.{IfOk};
ghost use Rattle.osgi_clause.specs.Faults.{name_faults};
ghost use Rattle.osgi_clause.specs.Lone.{IsLone, SaysNaming};
ghost use Rattle.osgi_clause.specs.Walks.{Walked};
ghost use Rattle.osgi_clause.specs.computed.Lone.{IsNamingOf, IsPathName};

use crate::fault::ClauseFault;
use crate::lone::lone;
use crate::repeats::repeats;
use osgi_base::Text;
use osgi_header::{Clause, ClauseAt};
use osgi_package::is_directed;
use osgi_syntax::bundle_name;
use osgi_world::ManifestKind;
use std::alloc::{AllocError, Global};

/// What a bundle says of itself by its name's clause.
#[derive(Drop)]
pub struct Naming {
    /// The symbolic name.
    pub name: Text,
    pub singleton: bool,
    /// Whether fragments may attach to it.
    pub attach: bool,
}

/// The symbolic name, if the clause has no other path.
fn path_name(alloc: Global, paths: &[Text]) -> Result<Option<Text>, AllocError>
    ensures name { IfOk result (IsPathName paths.now) }
{
    match paths {
        [path] => bundle_name(alloc, path.bytes()),
        _ => Ok(None),
    }
}

/// What a clause says of the bundle; none where it is at fault.
fn clause_naming(alloc: Global, clause: &Clause) -> Result<Option<Naming>, AllocError>
    ensures naming { IfOk result (IsNamingOf clause.now) }
{
    if repeats(alloc, clause)? {
        return Ok(None);
    }
    let Some(name) = path_name(alloc, clause.paths.items())? else {
        return Ok(None);
    };
    Ok(Some(Naming {
        name,
        singleton: is_directed(b"singleton", b"true", clause),
        attach: !is_directed(b"fragment-attachment", b"never", clause),
    }))
}

/// What the one clause of Bundle-SymbolicName says of its bundle, if there is a clause; or the first faulty one.
pub fn named(
    alloc: Global,
    clauses: &[ClauseAt],
) -> Result<Result<Option<Naming>, ClauseFault>, AllocError>
    ensures walked { IfOk result (Walked name_faults (IsLone SaysNaming) clauses.now) }
{
    let [first, ..] = clauses else {
        return Ok(Ok(None));
    };
    match clause_naming(alloc, &first.clause)? {
        Some(naming) => Ok(lone(clauses, ManifestKind::BadName, naming)),
        None => {
            let kind = ManifestKind::BadName;
            let at = first.at;
            Ok(Err(ClauseFault { kind, at }))
        }
    }
}
