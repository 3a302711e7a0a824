//! Why a turn was not carried out.
ghost use Rattle.std.specs.Prelude.{◌≡◌};
ghost use Rattle.lp_state.specs.Faults.{turn_fault};

use lp_driver::VmFault;
use lp_residence::answers::SwapCause;
use thiserror::Error;

/// Why a turn was not carried out.
#[derive(Debug, Drop, Error)]
pub enum TurnFault {
    /// An earlier turn of the state was not carried out.
    #[error("an earlier turn was not carried out")]
    HasFailed,
    /// The swap file failed, or gave bytes of another digest.
    #[error("the swap file did not give what was written")]
    Swap(SwapCause),
    /// Memory ran out; or the swap file gave other bytes of the same digest as those that were written.
    #[error("out of memory")]
    NoMemory,
}

/// A fault of the driver as one of a turn.
pub(crate) fn of_driver(fault: VmFault) -> TurnFault
    ensures { result ≡ turn_fault fault }
{
    match fault {
        VmFault::NoMemory => TurnFault::NoMemory,
        VmFault::Swap(cause) => TurnFault::Swap(cause),
    }
}
