//! Whether a clause gives an attribute or a directive twice.

ghost use Rattle.std.specs.Prelude.{◌≡◌, map, IfOk, MatchBool};
ghost use Rattle.osgi_clause.specs.Directives.{Repeats};

use osgi_base::{List, Text};
use osgi_header::{Clause, Pair, Typed};
use osgi_package::are_distinct;
use std::alloc::{AllocError, Global};

fn attribute_names(alloc: Global, attributes: &[Typed]) -> Result<List<Text>, AllocError>
    ensures names { IfOk result (λ names. names ≡ map (λ a. a.name) attributes.now) }
{
    let mut names = List::with_capacity(alloc, attributes.len())?;
    for attribute in attributes {
        names.push(attribute.name.copy(alloc)?)?;
    }
    Ok(names)
}

fn directive_names(alloc: Global, directives: &[Pair]) -> Result<List<Text>, AllocError>
    ensures names { IfOk result (λ names. names ≡ map (λ d. d.name) directives.now) }
{
    let mut names = List::with_capacity(alloc, directives.len())?;
    for directive in directives {
        names.push(directive.name.copy(alloc)?)?;
    }
    Ok(names)
}

/// Whether the clause gives an attribute or a directive twice.
pub fn repeats(alloc: Global, clause: &Clause) -> Result<bool, AllocError>
    ensures repeats { IfOk result (λ r. MatchBool r (Repeats clause.now) (¬ Repeats clause.now)) }
{
    let attributes = attribute_names(alloc, clause.attributes.items())?;
    if !are_distinct(alloc, attributes.items())? {
        return Ok(true);
    }
    let directives = directive_names(alloc, clause.directives.items())?;
    Ok(!are_distinct(alloc, directives.items())?)
}
