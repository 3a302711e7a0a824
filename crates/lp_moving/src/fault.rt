//! Why an object is not moved.
ghost use Rattle.std.specs.Prelude.{◌≡◌};

use std::alloc::AllocError;
use thiserror::Error;

/// Why an object is not moved.
#[derive(Clone, Copy, Debug, PartialEq, Eq, Error)]
pub enum MoveFault {
    /// The object is a shadow.
    #[error("a shadow is not moved")]
    IsShadow,
    /// The destination is the object or inside it.
    #[error("it would contain itself")]
    WouldContainItself,
    /// Memory ran out.
    #[error("out of memory")]
    NoMemory,
}

impl From<AllocError> for MoveFault {
    ghost use Rattle.lp_moving.specs.declared.fault.MoveFault.TheVariants.{NoMemory};

    ghost from_gives = { λ _ e. e ≡ NoMemory };

    fn from(_e: AllocError) -> MoveFault {
        MoveFault::NoMemory
    }
}
