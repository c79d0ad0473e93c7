//! The clauses of a header's value, read by their grammar.

ghost use Rattle.std.specs.Prelude.{◌≡◌, List, map, IfOk, MatchResult, Ok, Err};
ghost use Rattle.osgi_header.specs.Clauses.{AreClausesOf};
ghost use Rattle.osgi_header.specs.ClauseFaults.{IsClauseFault};
ghost use Rattle.osgi_header.specs.ReadClauses.{AreReadFrom};
ghost use Rattle.osgi_header.specs.computed.ClauseReader.{all_or_fault, clause_of, clause_or_kind, empty_clause, may_take, read_of, with_part};

use crate::blanks::is_blank;
use crate::clause::{Clause, ClauseAt, ReadClauses};
use crate::fault::{HeaderFault, HeaderKind};
use crate::parameters::{ClausePart, read_part};
use crate::parts::{is_open, split_part};
use osgi_base::List;
use std::alloc::{AllocError, Global};

fn empty(alloc: Global) -> Result<Clause, AllocError>
    ensures empty { IfOk result (λ clause. clause ≡ empty_clause) }
{
    Ok(Clause {
        paths: List::new(alloc)?,
        directives: List::new(alloc)?,
        attributes: List::new(alloc)?,
    })
}

/// Whether the part may follow the clause so far: a path before all parameters, a parameter after a path.
fn may_take(clause: &Clause, part: &ClausePart) -> bool
    ensures may { result ≡ may_take clause.now part.now }
{
    match part {
        ClausePart::Path(_) => {
            clause.directives.items().is_empty() && clause.attributes.items().is_empty()
        }
        ClausePart::Directive(_) | ClausePart::Attribute(_) => !clause.paths.items().is_empty(),
    }
}

/// The clause with a part more.
fn with_part(mut clause: Clause, part: ClausePart) -> Result<Clause, AllocError>
    ensures longer { IfOk result (λ longer. longer ≡ with_part clause part) }
{
    match part {
        ClausePart::Path(path) => clause.paths.push(path)?,
        ClausePart::Directive(directive) => clause.directives.push(directive)?,
        ClausePart::Attribute(attribute) => clause.attributes.push(attribute)?,
    }
    Ok(clause)
}

/// Reads a clause; none where the text is none.
fn read_clause(alloc: Global, text: &[u8]) -> Result<Option<Clause>, AllocError>
    ensures clause { IfOk result (λ clause. clause ≡ clause_of text.now) }
{
    let mut clause = empty(alloc)?;
    let mut left = Some(text);
    while let Some(rest) = left {
        let (prefix, remainder) = split_part(b';', rest);
        let Some(part) = read_part(alloc, prefix)? else {
            return Ok(None);
        };
        if !may_take(&clause, &part) {
            return Ok(None);
        }
        clause = with_part(clause, part)?;
        left = remainder;
    }
    Ok(Some(clause))
}

/// Reads a clause; where the text is none, what is wrong with it.
fn clause_or_kind(alloc: Global, text: &[u8]) -> Result<Result<Clause, HeaderKind>, AllocError>
    ensures clause { IfOk result (λ clause. clause ≡ clause_or_kind text.now) }
{
    if is_open(text) {
        return Ok(Err(HeaderKind::OpenQuote));
    }
    match read_clause(alloc, text)? {
        Some(clause) => Ok(Ok(clause)),
        None => Ok(Err(HeaderKind::BadClause)),
    }
}

/// Reads the clauses of a value up to its first fault.
fn read(alloc: Global, value: &[u8]) -> Result<ReadClauses, AllocError>
    ensures read { IfOk result (λ read. read ≡ read_of value.now) }
{
    let mut clauses = List::new(alloc)?;
    let mut left = if is_blank(value) { None } else { Some(value) };
    while let Some(rest) = left {
        let (text, remainder) = split_part(b',', rest);
        let at = (value.len() - rest.len()) as u64;
        match clause_or_kind(alloc, text)? {
            Ok(clause) => clauses.push(ClauseAt { at, clause })?,
            Err(kind) => {
                let fault = Some(HeaderFault { kind, at });
                return Ok(ReadClauses { clauses, fault });
            }
        }
        left = remainder;
    }
    let fault = None;
    Ok(ReadClauses { clauses, fault })
}

/// Reads the clauses of a header's value before its first fault, in order, and that fault if there is one.
///
/// A value of spaces and tabs alone has none. A fault names the first clause outside the grammar.
pub fn read_clauses(alloc: Global, value: &[u8]) -> Result<ReadClauses, AllocError>
    ensures reads { IfOk result (AreReadFrom value.now) }
    ensures only { (other : ReadClauses) → AreReadFrom value.now other → IfOk result (λ r. r ≡ other) }
{
    read(alloc, value)
}

fn without_places(alloc: Global, clauses: List<ClauseAt>) -> Result<List<Clause>, AllocError>
    ensures clauses { IfOk result (λ all. all ≡ map (λ c. c.clause) clauses) }
{
    let mut all = List::with_capacity(alloc, clauses.items().len())?;
    for ClauseAt { clause, .. } in clauses.into_items() {
        all.push(clause)?;
    }
    Ok(all)
}

/// All clauses, or the fault.
fn all_or_fault(
    alloc: Global,
    read: ReadClauses,
) -> Result<Result<List<Clause>, HeaderFault>, AllocError>
    ensures all { IfOk result (λ all. all ≡ all_or_fault read) }
{
    match read.fault {
        Some(fault) => Ok(Err(fault)),
        None => Ok(Ok(without_places(alloc, read.clauses)?)),
    }
}

/// Reads the clauses of a header's value, in order, where all of them can be read.
///
/// A value of spaces and tabs alone has none. A fault names the first clause outside the grammar.
pub fn clauses(alloc: Global, value: &[u8]) -> Result<Result<List<Clause>, HeaderFault>, AllocError>
    ensures reads { IfOk result (λ r. MatchResult r (AreClausesOf value.now) (IsClauseFault value.now)) }
    ensures only { (others : List Clause) → AreClausesOf value.now others → IfOk result (λ r. r ≡ Ok others) }
    ensures fault { (other : HeaderFault) → IsClauseFault value.now other → IfOk result (λ r. r ≡ Err other) }
{
    let read = read_clauses(alloc, value)?;
    all_or_fault(alloc, read)
}
