//! Why no call-out was made.
ghost use Rattle.std.specs.Prelude.{◌≡◌};

use std::alloc::{AllocError, AllocFailed};
use thiserror::Error;

/// Why no call-out was made.
#[derive(Debug, PartialEq, Eq, Drop, Error)]
pub enum TimerFault {
    /// As many call-outs wait as may wait.
    #[error("too many call-outs")]
    TooMany,
    /// Memory ran out, or the numbers of call-outs.
    #[error("out of memory")]
    NoMemory,
}

impl From<AllocError> for TimerFault {
    ghost use Rattle.lp_timers.specs.declared.fault.TimerFault.TheVariants.{NoMemory};

    ghost from_gives = { λ _ e. e ≡ NoMemory };

    fn from(_: AllocError) -> Self {
        TimerFault::NoMemory
    }
}

impl<T: Drop> From<AllocFailed<T>> for TimerFault {
    ghost use Rattle.lp_timers.specs.declared.fault.TimerFault.TheVariants.{NoMemory};

    ghost from_gives = { λ _ e. e ≡ NoMemory };

    fn from(_: AllocFailed<T>) -> Self {
        TimerFault::NoMemory
    }
}
