//! Whether a clause takes part in resolving.

ghost use Rattle.std.specs.Prelude.{◌≡◌};
ghost use Rattle.osgi_clause.specs.Directives as spec;

use osgi_header::Clause;
use osgi_package::directive_value;

/// Whether its `effective` is `resolve`, which it is also where the clause does not give it.
pub fn takes_part(clause: &Clause) -> bool
    ensures takes_part { result ≡ spec.takes_part clause.now }
{
    match directive_value(b"effective", clause) {
        Some(given) => given.bytes() == b"resolve".as_slice(),
        None => true,
    }
}
