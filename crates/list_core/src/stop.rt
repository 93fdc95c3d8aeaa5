//! Why a reading stopped.
ghost use Rattle.std.specs.Prelude.{◌≡◌};
ghost use Rattle.list_core.specs.declared.stop.Stop.TheVariants.{Memory};

use std::alloc::{AllocError, AllocFailed};

/// No memory, or a fault of what is read.
#[derive(Debug, Drop)]
pub enum Stop<F> {
    Memory,
    Fault(F),
}

impl<F> From<AllocError> for Stop<F> {
    ghost from_gives = { λ _ e. e ≡ Memory };

    fn from(_e: AllocError) -> Stop<F> {
        Stop::Memory
    }
}

impl<F, T: Drop> From<AllocFailed<T>> for Stop<F> {
    ghost from_gives = { λ _ e. e ≡ Memory };

    fn from(_e: AllocFailed<T>) -> Stop<F> {
        Stop::Memory
    }
}
