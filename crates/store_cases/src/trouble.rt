// Why a scenario ends early.
use std::alloc::{AllocError, AllocFailed};

/// Why a scenario ends early.
#[derive(Drop)]
pub(crate) enum Trouble {
    OutOfMemory,
    /// A call was refused that isn't to be.
    Refused,
}

impl From<AllocError> for Trouble {
    fn from(_error: AllocError) -> Trouble {
        Trouble::OutOfMemory
    }
}

impl<T: Drop> From<AllocFailed<T>> for Trouble {
    fn from(_error: AllocFailed<T>) -> Trouble {
        Trouble::OutOfMemory
    }
}
