//! What calls with the swap file answer.
ghost use Rattle.std.specs.Prelude.{◌≡◌};

use crate::owner::Owner;
use lp_swapper::Octets;
use std::alloc::{AllocError, AllocFailed};
use thiserror::Error;

/// What became of an object or a program that was to go out.
#[derive(Clone, Copy, Debug, PartialEq, Eq)]
pub enum PutOut {
    /// It is out.
    Out,
    /// There is none: the object is not live, or the state does not have the version.
    NotThere,
    /// It was out already.
    Already,
    /// It is kept in memory, since the write failed.
    KeptFault,
    /// It is kept in memory, since there is no room in the file.
    KeptFull,
}

/// How many idle objects and programs went out, and how many were kept in memory for each cause.
#[derive(Clone, Copy, Debug, PartialEq, Eq)]
pub struct Idled {
    /// How many are out.
    pub out: u64,
    /// How many were kept since a write failed.
    pub fault: u64,
    /// How many were kept since there is no room.
    pub full: u64,
}

/// Why a record did not come back.
#[derive(Debug, PartialEq, Eq, Drop)]
pub enum SwapCause {
    /// The read failed.
    Read,
    /// The file holds other bytes than were written.
    Changed {
        /// Whose record it is.
        owner: Owner,
        /// What stands in its place.
        found: Octets,
    },
}

/// Why an object or a program was not brought back.
#[derive(Debug, PartialEq, Eq, Drop, Error)]
pub enum EnterFault {
    /// The swap file failed, or lied.
    #[error("the swap file did not give what was written")]
    Swap(SwapCause),
    /// Memory ran out. It also comes where bytes of the right length and digest are no record that fits.
    #[error("out of memory")]
    NoMemory,
}

impl From<AllocError> for EnterFault {
    ghost use Rattle.lp_residence.specs.declared.answers.EnterFault.TheVariants.{NoMemory};

    ghost from_gives = { λ _ e. e ≡ NoMemory };

    fn from(_e: AllocError) -> EnterFault {
        EnterFault::NoMemory
    }
}

impl<T: Drop> From<AllocFailed<T>> for EnterFault {
    ghost use Rattle.lp_residence.specs.declared.answers.EnterFault.TheVariants.{NoMemory};

    ghost from_gives = { λ _ e. e ≡ NoMemory };

    fn from(_e: AllocFailed<T>) -> EnterFault {
        EnterFault::NoMemory
    }
}
