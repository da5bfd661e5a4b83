// Why a call was refused.
use std::alloc::{AllocError, AllocFailed};

/// Memory ran out.
pub type OutOfMemory = AllocError;

/// Why a call was refused: a fault of what it was given, or want of memory.
#[derive(PartialEq, Eq, Drop)]
pub enum Refusal<F> {
    Fault(F),
    OutOfMemory,
}

impl<F> From<AllocError> for Refusal<F> {
    ghost use Rattle.std.specs.Prelude.{◌≡◌};
    ghost use Rattle.mon_value.specs.declared.refusals.Refusal.TheVariants.{OutOfMemory};

    ghost from_gives = { λ _ refusal. refusal ≡ OutOfMemory };

    fn from(_error: AllocError) -> Refusal<F> {
        Refusal::OutOfMemory
    }
}

impl<F, T: Drop> From<AllocFailed<T>> for Refusal<F> {
    ghost use Rattle.std.specs.Prelude.{◌≡◌};
    ghost use Rattle.mon_value.specs.declared.refusals.Refusal.TheVariants.{OutOfMemory};

    ghost from_gives = { λ _ refusal. refusal ≡ OutOfMemory };

    fn from(_error: AllocFailed<T>) -> Refusal<F> {
        Refusal::OutOfMemory
    }
}
