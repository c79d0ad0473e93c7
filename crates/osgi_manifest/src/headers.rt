//! The values of headers by their names, and the clauses of these.

ghost use Rattle.std.specs.Prelude.{◌≡◌, List, None, IfOk};
ghost use Rattle.std.specs.Option.{option_copied};
ghost use Rattle.std.specs.Str.{str_eq_ignore_ascii_case};
ghost use Rattle.osgi_manifest.specs.Values as spec;
ghost use Rattle.osgi_manifest.specs.computed.Answers.{IsReadIn, IsStopOf};

use osgi_base::{List, Stop, Text};
use osgi_clause::ClauseFault;
use osgi_header::{Header, HeaderFault, ReadClauses, read_clauses};
use osgi_world::{ManifestFault, ManifestKind};
use std::alloc::{AllocError, Global};

fn is_named(name: &[u8], header: &Header) -> bool
    ensures named { result ≡ str_eq_ignore_ascii_case header.now.name name.now }
{
    header.name.bytes().eq_ignore_ascii_case(name)
}

/// The value of the header of the name, in whatever case, if the manifest has it.
pub fn header_value<'a>(name: &[u8], headers: &'a [Header]) -> Option<&'a Text>
    ensures value { option_copied result ≡ spec.header_value name.now headers.now }
{
    for header in headers {
        if is_named(name, header) {
            return Some(&header.value);
        }
    }
    None
}

/// What the header of the name says up to its first fault; without the header, nothing.
pub fn read_header(
    alloc: Global,
    name: &[u8],
    headers: &[Header],
) -> Result<ReadClauses, AllocError>
    ensures read { IfOk result (IsReadIn name.now headers.now) }
{
    match header_value(name, headers) {
        Some(value) => read_clauses(alloc, value.bytes()),
        None => Ok(ReadClauses {
            clauses: List::new(alloc)?,
            fault: None,
        }),
    }
}

/// The fault of a header, at this byte of its value.
pub fn header_fault(
    alloc: Global,
    name: &[u8],
    kind: ManifestKind,
    at: u64,
) -> Result<ManifestFault, AllocError>
    ensures fault { IfOk result (λ f. f ≡ record { header = name.now; kind = kind; at = at }) }
{
    let header = Text::of(alloc, name)?;
    Ok(ManifestFault { header, kind, at })
}

/// What was made of a header's clauses; or the fault of the first faulty one, which is one outside the grammar where all before
/// it are without a fault.
pub fn made_of<A: Drop>(
    alloc: Global,
    name: &[u8],
    outside: ManifestKind,
    fault: Option<HeaderFault>,
    made: Result<A, ClauseFault>,
) -> Result<A, Stop<ManifestFault>>
    ensures made { IsStopOf name.now outside fault made result }
{
    match made {
        Err(found) => Err(Stop::Fault(header_fault(alloc, name, found.kind, found.at)?)),
        Ok(made) => match fault {
            Some(found) => Err(Stop::Fault(header_fault(alloc, name, outside, found.at)?)),
            None => Ok(made),
        },
    }
}
