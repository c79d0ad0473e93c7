//! The kinds of requirements, in the order in which those of a revision are decided.

ghost use Rattle.std.specs.Prelude.{◌≡◌};
ghost use Rattle.osgi_resolver_decisions.specs.computed.Asks.{has_kind};

use osgi_lookup::{is_bundle, is_package};

/// A required bundle, an import, or any other.
#[derive(Clone, Copy, PartialEq, Eq)]
pub enum Kind {
    Bundle,
    Package,
    Other,
}

impl Kind {
    /// Whether a requirement of the namespace is of this kind.
    pub fn has(self, namespace: &[u8]) -> bool
        ensures has { result ≡ has_kind self namespace.now }
    {
        match self {
            Kind::Bundle => is_bundle(namespace),
            Kind::Package => is_package(namespace),
            Kind::Other => !(is_bundle(namespace) || is_package(namespace)),
        }
    }
}
