//! Why bytes are not unpacked.
ghost use Rattle.std.specs.Prelude.{◌≡◌};
ghost use Rattle.lp_image.specs.declared.fault.ImageFault.TheVariants.{NoMemory};

use std::alloc::{AllocError, AllocFailed};
use thiserror::Error;

/// Why bytes are not unpacked.
#[derive(Debug, PartialEq, Eq, Drop, Error)]
pub enum ImageFault {
    /// Memory ran out.
    #[error("out of memory")]
    NoMemory,
    /// No record has this image.
    #[error("no record")]
    NoRecord,
}

impl From<AllocError> for ImageFault {
    ghost from_gives = { λ _ e. e ≡ NoMemory };

    fn from(_e: AllocError) -> ImageFault {
        ImageFault::NoMemory
    }
}

impl<T: Drop> From<AllocFailed<T>> for ImageFault {
    ghost from_gives = { λ _ e. e ≡ NoMemory };

    fn from(_e: AllocFailed<T>) -> ImageFault {
        ImageFault::NoMemory
    }
}
