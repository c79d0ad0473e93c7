//! Headers of one clause.

ghost use Rattle.std.specs.Prelude.{◌≡◌};
ghost use Rattle.osgi_clause.specs.computed.Lone.{lone_of};

use crate::fault::ClauseFault;
use osgi_header::ClauseAt;
use osgi_world::ManifestKind;

/// What the first clause makes, where it is the only one; a second clause has this fault.
pub fn lone<A: Drop>(
    clauses: &[ClauseAt],
    kind: ManifestKind,
    made: A,
) -> Result<Option<A>, ClauseFault>
    ensures lone { result ≡ lone_of clauses.now kind made }
{
    match clauses {
        [_, second, ..] => {
            let at = second.at;
            Err(ClauseFault { kind, at })
        }
        _ => Ok(Some(made)),
    }
}
