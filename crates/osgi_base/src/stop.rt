//! Why reading stops.

ghost use Rattle.std.specs.Prelude.{◌≡◌};
ghost use Rattle.osgi_base.specs.declared.stop.Stop.TheVariants.{Memory};

use std::alloc::{AllocError, AllocFailed};

/// What is read is at fault, or memory ran out.
#[derive(Drop)]
pub enum Stop<F> {
    Fault(F),
    Memory,
}

impl<F> From<AllocError> for Stop<F> {
    ghost from_gives = { λ _ e. e ≡ Memory };

    fn from(_e: AllocError) -> Stop<F> {
        Stop::Memory
    }
}

impl<F, T: Drop> From<AllocFailed<T>> for Stop<F> {
    ghost from_gives = { λ _ e. e ≡ Memory };

    fn from(_e: AllocFailed<T>) -> Stop<F> {
        Stop::Memory
    }
}
