//! Why a unit has no tables.
ghost use Rattle.std.specs.Prelude.{◌≡◌};
ghost use Rattle.lp_layout.specs.declared.fault.InheritFault.TheVariants.{NoMemory};

use lp_tree::fault::FaultKind;
use std::alloc::{AllocError, AllocFailed};
use thiserror::Error;

/// Why a unit has no tables.
#[derive(Debug, PartialEq, Eq, Drop, Error)]
pub enum InheritFault {
    /// Memory ran out.
    #[error("out of memory")]
    NoMemory,
    /// The layout has a fault: this is the first.
    #[error("faulty in line {line}")]
    At {
        /// The line, from 1.
        line: u32,
        /// What is wrong.
        kind: FaultKind,
    },
}

impl From<AllocError> for InheritFault {
    ghost from_gives = { λ _ e. e ≡ NoMemory };

    fn from(_e: AllocError) -> InheritFault {
        InheritFault::NoMemory
    }
}

impl<T: Drop> From<AllocFailed<T>> for InheritFault {
    ghost from_gives = { λ _ e. e ≡ NoMemory };

    fn from(_e: AllocFailed<T>) -> InheritFault {
        InheritFault::NoMemory
    }
}
