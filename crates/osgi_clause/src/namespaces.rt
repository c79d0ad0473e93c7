//! Namespaces that headers of their own are for.

ghost use Rattle.std.specs.Prelude.{◌≡◌};
ghost use Rattle.std.specs.List.{list_any};
ghost use Rattle.osgi_clause.specs.Faults as spec;

use osgi_base::Text;

fn is_reserved(namespace: &[u8]) -> bool
    ensures reserved { result ≡ spec.is_reserved namespace.now }
{
    namespace == b"osgi.identity".as_slice() || namespace.starts_with(b"osgi.wiring.")
}

/// Whether one of the namespaces is one of these.
pub fn has_reserved(namespaces: &[Text]) -> bool
    ensures reserved { result ≡ list_any spec.is_reserved namespaces.now }
{
    namespaces
        .iter()
        .any(|namespace| is_reserved(namespace.bytes()))
}
