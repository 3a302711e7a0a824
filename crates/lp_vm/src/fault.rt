//! Why a call is not answered.
ghost use Rattle.std.specs.Prelude.{◌≡◌};
ghost use Rattle.lp_vm.specs.declared.fault.VmFault.TheVariants.{NoMemory};
ghost use Rattle.lp_vm.specs.Faults.{fault_of};

use lp_calling::job::CallingFault;
use lp_efuns::answer::EfunFault;
use lp_residence::answers::{EnterFault, SwapCause};
use lp_step::fault::StepFault;
use std::alloc::{AllocError, AllocFailed};
use thiserror::Error;

/// Why a call is not answered.
#[derive(Debug, Drop, Error)]
pub enum VmFault {
    /// Memory ran out, or a number has no room; or the swap file gave other bytes of the same digest as those that were written.
    #[error("out of memory")]
    NoMemory,
    /// The swap file failed, or gave bytes of another digest.
    #[error("the swap file did not give what was written")]
    Swap(SwapCause),
}

impl From<AllocError> for VmFault {
    ghost from_gives = { λ _ e. e ≡ NoMemory };

    fn from(_e: AllocError) -> VmFault {
        VmFault::NoMemory
    }
}

impl<T: Drop> From<AllocFailed<T>> for VmFault {
    ghost from_gives = { λ _ e. e ≡ NoMemory };

    fn from(_e: AllocFailed<T>) -> VmFault {
        VmFault::NoMemory
    }
}

impl From<StepFault> for VmFault {
    ghost from_gives = { λ _ e. e ≡ NoMemory };

    fn from(_e: StepFault) -> VmFault {
        VmFault::NoMemory
    }
}

impl From<EnterFault> for VmFault {
    ghost from_gives = { λ x e. e ≡ fault_of x };

    fn from(e: EnterFault) -> VmFault {
        match e {
            EnterFault::Swap(cause) => VmFault::Swap(cause),
            EnterFault::NoMemory => VmFault::NoMemory,
        }
    }
}

impl From<EfunFault> for VmFault {
    ghost from_gives = { λ _ e. e ≡ NoMemory };

    fn from(_e: EfunFault) -> VmFault {
        VmFault::NoMemory
    }
}

impl From<CallingFault> for VmFault {
    ghost from_gives = { λ _ e. e ≡ NoMemory };

    fn from(_e: CallingFault) -> VmFault {
        VmFault::NoMemory
    }
}
