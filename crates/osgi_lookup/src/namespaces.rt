//! The namespaces that the rules of wirings know.

ghost use Rattle.std.specs.Prelude.{◌≡◌};
ghost use Rattle.osgi_world.specs.Satisfaction.{is_bundle, is_package};

/// Whether these bytes are the namespace of bundles.
pub fn is_bundle(namespace: &[u8]) -> bool
    ensures bundle { result ≡ is_bundle namespace.now }
{
    namespace == b"osgi.wiring.bundle".as_slice()
}

/// Whether these bytes are the namespace of packages.
pub fn is_package(namespace: &[u8]) -> bool
    ensures package { result ≡ is_package namespace.now }
{
    namespace == b"osgi.wiring.package".as_slice()
}
