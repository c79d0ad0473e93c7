//! The scopes of services.

/// Who shares an object of a service.
#[derive(Clone, Copy, Debug, PartialEq, Eq)]
pub enum Scope {
    /// All users have one object.
    Singleton,
    /// Each bundle that uses the service has an object of its own.
    Bundle,
    /// A bundle may ask for objects of its own; else it has one for all its uses.
    Prototype,
}
