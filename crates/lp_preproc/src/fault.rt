//! What an expansion answers.
use lp_tree::fault::Fault;
use lp_tree::pragma::Pragmas;
use lp_tree::token::Token;
use std::alloc::{AllocError, AllocFailed};
use thiserror::Error;

/// A file after includes, conditionals and macros.
#[derive(Debug, Drop)]
pub struct Expanded {
    /// Its tokens, each with its line in the file.
    pub tokens: Vec<Token>,
    /// Its pragmas.
    pub pragmas: Pragmas,
}

/// Why a file has no expansion.
#[derive(Debug, Drop, Error)]
pub enum PreFault {
    /// Memory ran out.
    #[error("out of memory")]
    NoMemory,
    /// The first fault of the file.
    #[error("a fault of the source")]
    At(Fault),
}

impl From<AllocError> for PreFault {
    ghost use Rattle.std.specs.Prelude.{◌≡◌};
    ghost use Rattle.lp_preproc.specs.declared.fault.PreFault.TheVariants.{NoMemory};

    ghost from_gives = { λ _ e. e ≡ NoMemory };

    fn from(_: AllocError) -> Self {
        PreFault::NoMemory
    }
}

impl<T: Drop> From<AllocFailed<T>> for PreFault {
    ghost use Rattle.std.specs.Prelude.{◌≡◌};
    ghost use Rattle.lp_preproc.specs.declared.fault.PreFault.TheVariants.{NoMemory};

    ghost from_gives = { λ _ e. e ≡ NoMemory };

    fn from(_: AllocFailed<T>) -> Self {
        PreFault::NoMemory
    }
}
