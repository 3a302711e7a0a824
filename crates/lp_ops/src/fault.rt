//! Why an operator gives no value.
ghost use Rattle.std.specs.Prelude.{◌≡◌};
ghost use Rattle.lp_ops.specs.declared.fault.OpFault.TheVariants.{NoMemory};

use lp_values::error::RunError;
use std::alloc::{AllocError, AllocFailed};
use thiserror::Error;

/// Why an operator gives no value.
#[derive(Debug, PartialEq, Eq, Drop, Error)]
pub enum OpFault {
    /// Memory ran out.
    #[error("out of memory")]
    NoMemory,
    /// A run-time error, which LPC may catch.
    #[error("run-time error")]
    Run(RunError),
}

impl From<AllocError> for OpFault {
    ghost from_gives = { λ _ e. e ≡ NoMemory };

    fn from(_e: AllocError) -> OpFault {
        OpFault::NoMemory
    }
}

impl<T: Drop> From<AllocFailed<T>> for OpFault {
    ghost from_gives = { λ _ e. e ≡ NoMemory };

    fn from(_e: AllocFailed<T>) -> OpFault {
        OpFault::NoMemory
    }
}
