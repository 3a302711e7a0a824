//! Why a call on cells is refused.
ghost use Rattle.std.specs.Prelude.{◌≡◌};
ghost use Rattle.lp_cells.specs.declared.fault.CellFault.TheVariants.{NoMemory};

use std::alloc::{AllocError, AllocFailed};
use thiserror::Error;

/// Why a call on cells is refused.
#[derive(Debug, PartialEq, Eq, Drop, Error)]
pub enum CellFault {
    /// Memory ran out.
    #[error("out of memory")]
    NoMemory,
    /// There would be more items than an array or a mapping may have.
    #[error("too long")]
    TooLong,
    /// The index is not below the length.
    #[error("bad index")]
    BadIndex,
}

impl From<AllocError> for CellFault {
    ghost from_gives = { λ _ e. e ≡ NoMemory };

    fn from(_e: AllocError) -> CellFault {
        CellFault::NoMemory
    }
}

impl<T: Drop> From<AllocFailed<T>> for CellFault {
    ghost from_gives = { λ _ e. e ≡ NoMemory };

    fn from(_e: AllocFailed<T>) -> CellFault {
        CellFault::NoMemory
    }
}
