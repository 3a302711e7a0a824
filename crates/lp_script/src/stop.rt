//! Why no item was read.
ghost use Rattle.std.specs.Prelude.{◌≡◌};
ghost use Rattle.lp_script.specs.declared.stop.ReadError.TheVariants.{NoMemory};

use std::alloc::{AllocError, AllocFailed};

/// Why no item was read.
#[derive(Clone, Copy, Debug, PartialEq, Eq)]
pub enum Stop {
    /// The bytes ran out, and an item that may stand here begins so.
    Short,
    /// No item that may stand here begins so.
    Wrong,
}

/// Why a call gives no item.
#[derive(Debug, Drop)]
pub enum ReadError {
    NoMemory,
    Stop(Stop),
}

impl From<AllocError> for ReadError {
    ghost from_gives = { λ _ e. e ≡ NoMemory };

    fn from(_e: AllocError) -> ReadError {
        ReadError::NoMemory
    }
}

impl<T: Drop> From<AllocFailed<T>> for ReadError {
    ghost from_gives = { λ _ e. e ≡ NoMemory };

    fn from(_e: AllocFailed<T>) -> ReadError {
        ReadError::NoMemory
    }
}
