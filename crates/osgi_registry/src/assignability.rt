//! Who is asked to whom a bundle's services are assignable.

ghost use Rattle.std.specs.Prelude.{◌↔◌, IfOk, IsTrue};
ghost use Rattle.osgi_ops.specs.Assignable.{IsAssignable};
ghost use Rattle.osgi_world.specs.declared.world.World.{World};

use osgi_base::{BundleId, Text};
use std::alloc::AllocError;

/// Decides to whom services are assignable, by the wirings of a world.
pub trait Assignability {
    ghost world: { Self → World };

    /// Whether a registrant's services of a class are assignable to who asks.
    fn is_assignable(
        &self,
        registrant: BundleId,
        asker: BundleId,
        class: &Text,
    ) -> Result<bool, AllocError>
        ensures assignable { IfOk result (λ is. IsTrue is ↔ IsAssignable (world self.now) registrant asker class.now) };
}
