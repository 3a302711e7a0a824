//! Why an object is not made.
ghost use Rattle.std.specs.Prelude.{◌≡◌};
ghost use Rattle.lp_beginning.specs.declared.fault.MakingFault.TheVariants.{NoMemory};
ghost use Rattle.lp_beginning.specs.Beginning.{fault_of};

use lp_residence::answers::{EnterFault, SwapCause};
use std::alloc::{AllocError, AllocFailed};
use thiserror::Error;

/// Why an object is not made.
#[derive(Debug, Drop, Error)]
pub enum MakingFault {
    /// A live object has the name.
    #[error("the name is taken")]
    NameTaken,
    /// The swap file failed, or gave bytes of another digest.
    #[error("the swap file did not give what was written")]
    Swap(SwapCause),
    /// Memory ran out; or the swap file gave other bytes of the same digest as those that were written.
    #[error("out of memory")]
    NoMemory,
}

impl From<AllocError> for MakingFault {
    ghost from_gives = { λ _ e. e ≡ NoMemory };

    fn from(_e: AllocError) -> MakingFault {
        MakingFault::NoMemory
    }
}

impl<T: Drop> From<AllocFailed<T>> for MakingFault {
    ghost from_gives = { λ _ e. e ≡ NoMemory };

    fn from(_e: AllocFailed<T>) -> MakingFault {
        MakingFault::NoMemory
    }
}

impl From<EnterFault> for MakingFault {
    ghost from_gives = { λ x e. e ≡ fault_of x };

    fn from(e: EnterFault) -> MakingFault {
        match e {
            EnterFault::Swap(cause) => MakingFault::Swap(cause),
            EnterFault::NoMemory => MakingFault::NoMemory,
        }
    }
}
