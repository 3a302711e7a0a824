//! Why an object is not made.
ghost use Rattle.std.specs.Prelude.{◌≡◌};
ghost use Rattle.lp_objects.specs.declared.fault.ObjectFault.TheVariants.{NoMemory};

use std::alloc::{AllocError, AllocFailed};
use thiserror::Error;

/// Why an object is not made.
#[derive(Debug, PartialEq, Eq, Drop, Error)]
pub enum ObjectFault {
    /// A live object has the name.
    #[error("the name is taken")]
    NameTaken,
    /// There are as many live objects as there may be.
    #[error("too many objects")]
    TooMany,
    /// Memory ran out, or the serials did.
    #[error("out of memory")]
    NoMemory,
}

impl From<AllocError> for ObjectFault {
    ghost from_gives = { λ _ e. e ≡ NoMemory };

    fn from(_e: AllocError) -> ObjectFault {
        ObjectFault::NoMemory
    }
}

impl<T: Drop> From<AllocFailed<T>> for ObjectFault {
    ghost from_gives = { λ _ e. e ≡ NoMemory };

    fn from(_e: AllocFailed<T>) -> ObjectFault {
        ObjectFault::NoMemory
    }
}
