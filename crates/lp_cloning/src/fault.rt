//! Why nothing is cloned.
ghost use Rattle.std.specs.Prelude.{◌≡◌};
ghost use Rattle.lp_cloning.specs.Faults.{entered_as, made_as};
ghost use Rattle.lp_cloning.specs.declared.fault.CloningFault.TheVariants.{NoMemory};

use lp_beginning::fault::MakingFault;
use lp_residence::answers::{EnterFault, SwapCause};
use std::alloc::{AllocError, AllocFailed};
use thiserror::Error;

/// Why nothing is cloned.
#[derive(Debug, Drop, Error)]
pub enum CloningFault {
    /// A live object has the name of the clone.
    #[error("the name is taken")]
    NameTaken,
    /// The swap file failed, or gave bytes of another digest.
    #[error("the swap file did not give what was written")]
    Swap(SwapCause),
    /// Memory ran out, or the numbers of clones did; or the swap file gave other bytes of the same digest as those that were written.
    #[error("out of memory")]
    NoMemory,
}

impl From<AllocError> for CloningFault {
    ghost from_gives = { λ _ e. e ≡ NoMemory };

    fn from(_e: AllocError) -> CloningFault {
        CloningFault::NoMemory
    }
}

impl<T: Drop> From<AllocFailed<T>> for CloningFault {
    ghost from_gives = { λ _ e. e ≡ NoMemory };

    fn from(_e: AllocFailed<T>) -> CloningFault {
        CloningFault::NoMemory
    }
}

impl From<EnterFault> for CloningFault {
    ghost from_gives = { λ x e. e ≡ entered_as x };

    fn from(e: EnterFault) -> CloningFault {
        match e {
            EnterFault::Swap(cause) => CloningFault::Swap(cause),
            EnterFault::NoMemory => CloningFault::NoMemory,
        }
    }
}

impl From<MakingFault> for CloningFault {
    ghost from_gives = { λ x e. e ≡ made_as x };

    fn from(e: MakingFault) -> CloningFault {
        match e {
            MakingFault::NameTaken => CloningFault::NameTaken,
            MakingFault::Swap(cause) => CloningFault::Swap(cause),
            MakingFault::NoMemory => CloningFault::NoMemory,
        }
    }
}
