//! Why a form and its arguments make no text.
ghost use Rattle.std.specs.Prelude.{◌≡◌};

use std::alloc::{AllocError, AllocFailed};
use thiserror::Error;

/// Why a form and its arguments make no text.
#[derive(Debug, PartialEq, Eq, Drop, Error)]
pub enum FormatFault {
    /// A `%` begins no directive.
    #[error("bad format at {at}")]
    BadFormat {
        /// The place of the `%` in the form, in code points.
        at: u64,
    },
    /// A directive has no argument left.
    #[error("too few arguments")]
    TooFewArgs,
    /// An argument is not what its directive wants.
    #[error("bad argument {n}")]
    BadArg {
        /// The number of the argument, where the form has the number 1.
        n: u64,
    },
    /// The text would have more than 100000 code points.
    #[error("text too long")]
    TooLong,
    /// Memory ran out.
    #[error("out of memory")]
    NoMemory,
}

impl From<AllocError> for FormatFault {
    ghost use Rattle.lp_format.specs.declared.fault.FormatFault.TheVariants.{NoMemory};

    ghost from_gives = { λ _ e. e ≡ NoMemory };

    fn from(_: AllocError) -> Self {
        FormatFault::NoMemory
    }
}

impl<T: Drop> From<AllocFailed<T>> for FormatFault {
    ghost use Rattle.lp_format.specs.declared.fault.FormatFault.TheVariants.{NoMemory};

    ghost from_gives = { λ _ e. e ≡ NoMemory };

    fn from(_: AllocFailed<T>) -> Self {
        FormatFault::NoMemory
    }
}
