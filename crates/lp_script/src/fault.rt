//! Why a script is not read on.
ghost use Rattle.std.specs.Prelude.{◌≡◌};
ghost use Rattle.lp_script.specs.declared.fault.ScriptFault.TheVariants.{NoMemory};

use std::alloc::{AllocError, AllocFailed};
use thiserror::Error;

/// Why a script is not read on.
#[derive(Debug, PartialEq, Eq, Drop, Error)]
pub enum ScriptFault {
    /// At this offset stands no item, or one that may not stand there.
    #[error("bad script at byte {at}")]
    BadScript { at: u64 },
    /// The input goes on past the most bytes that a script may have.
    #[error("the script is too large")]
    TooLarge,
    /// A read of the input failed.
    #[error("the input failed")]
    InputFault,
    #[error("out of memory")]
    NoMemory,
}

impl From<AllocError> for ScriptFault {
    ghost from_gives = { λ _ e. e ≡ NoMemory };

    fn from(_e: AllocError) -> ScriptFault {
        ScriptFault::NoMemory
    }
}

impl<T: Drop> From<AllocFailed<T>> for ScriptFault {
    ghost from_gives = { λ _ e. e ≡ NoMemory };

    fn from(_e: AllocFailed<T>) -> ScriptFault {
        ScriptFault::NoMemory
    }
}
