//! What an efun answers.
ghost use Rattle.std.specs.Prelude.{◌≡◌};
ghost use Rattle.lp_efuns.specs.declared.answer.EfunFault.TheVariants.{NoMemory};

use lp_values::error::RunError;
use lp_values::value::Value;
use std::alloc::{AllocError, AllocFailed};
use thiserror::Error;

/// What a call of an efun answers.
#[derive(Debug, Drop)]
pub enum Answer {
    /// A value.
    Value(Value),
    /// A run-time error.
    Error(RunError),
    /// A thrown value.
    Thrown(Value),
    /// The budget is spent, and nothing of it is left.
    Spent,
}

/// What an efun comes to before the price of its result is paid.
#[derive(Debug, Drop)]
pub enum Did {
    /// A value, whose cell is made.
    Value(Value),
    /// A run-time error.
    Error(RunError),
    /// A thrown value.
    Thrown(Value),
}

/// Why an efun is not carried out.
#[derive(Debug, PartialEq, Eq, Drop, Error)]
pub enum EfunFault {
    /// Memory ran out.
    #[error("out of memory")]
    NoMemory,
}

impl From<AllocError> for EfunFault {
    ghost from_gives = { λ _ e. e ≡ NoMemory };

    fn from(_e: AllocError) -> EfunFault {
        EfunFault::NoMemory
    }
}

impl<T: Drop> From<AllocFailed<T>> for EfunFault {
    ghost from_gives = { λ _ e. e ≡ NoMemory };

    fn from(_e: AllocFailed<T>) -> EfunFault {
        EfunFault::NoMemory
    }
}
