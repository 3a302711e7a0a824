//! Why a workload is not written whole.
ghost use Rattle.std.specs.Prelude.{◌≡◌};

use std::alloc::AllocError;
use thiserror::Error;

/// Why a workload was not written whole.
#[derive(Clone, Copy, Debug, PartialEq, Eq, Error)]
pub enum WorkloadFault {
    #[error("the output failed")]
    Failed,
    #[error("the output takes no more")]
    ZeroTaken,
    #[error("out of memory")]
    NoMemory,
}

impl From<AllocError> for WorkloadFault {
    ghost use Rattle.lp_workload.specs.declared.fault.WorkloadFault.TheVariants.{NoMemory};

    ghost from_gives = { λ _ e. e ≡ NoMemory };

    fn from(_fault: AllocError) -> WorkloadFault {
        WorkloadFault::NoMemory
    }
}
