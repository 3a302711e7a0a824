//! Why a program is refused.
ghost use Rattle.std.specs.Prelude.{◌≡◌};
ghost use Rattle.lp_verify.specs.declared.fault.VerifyFault.TheVariants.{NoMemory};

use std::alloc::{AllocError, AllocFailed};
use thiserror::Error;

/// Why a program is refused.
#[derive(Debug, PartialEq, Eq, Drop, Error)]
pub enum VerifyFault {
    /// Memory ran out.
    #[error("out of memory")]
    NoMemory,
    /// The program is not sound.
    #[error("unsound at instruction {at}")]
    Unsound {
        /// The least instruction that fails, or the number of instructions where only a function, a switch or a table does.
        at: usize,
    },
}

impl From<AllocError> for VerifyFault {
    ghost from_gives = { λ _ e. e ≡ NoMemory };

    fn from(_e: AllocError) -> VerifyFault {
        VerifyFault::NoMemory
    }
}

impl<T: Drop> From<AllocFailed<T>> for VerifyFault {
    ghost from_gives = { λ _ e. e ≡ NoMemory };

    fn from(_e: AllocFailed<T>) -> VerifyFault {
        VerifyFault::NoMemory
    }
}
