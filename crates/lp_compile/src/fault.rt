//! Why there is no program.
ghost use Rattle.std.specs.Prelude.{◌≡◌};

use lp_tree::fault::Fault;
use std::alloc::{AllocError, AllocFailed};
use thiserror::Error;

/// Why a file has no program.
#[derive(Debug, Drop, Error)]
pub enum CompileFault {
    /// The first file that it inherits and that is not loaded.
    #[error("a parent is not loaded")]
    Need(String),
    /// Its faults: the first of its expansion or of its unit; or else all of its types; or else the first of its layout.
    #[error("faults in the file")]
    Faults(Vec<Fault>),
    /// A number has no room in an instruction or a row of its program: a place, a text, a count, or the height of the stack.
    #[error("too large")]
    TooLarge,
    /// There is no memory.
    #[error("out of memory")]
    NoMemory,
}

impl From<AllocError> for CompileFault {
    ghost use Rattle.lp_compile.specs.declared.fault.CompileFault.TheVariants.{NoMemory};

    ghost from_gives = { λ _ e. e ≡ NoMemory };

    fn from(_e: AllocError) -> CompileFault {
        CompileFault::NoMemory
    }
}

impl<T: Drop> From<AllocFailed<T>> for CompileFault {
    ghost use Rattle.lp_compile.specs.declared.fault.CompileFault.TheVariants.{NoMemory};

    ghost from_gives = { λ _ e. e ≡ NoMemory };

    fn from(_e: AllocFailed<T>) -> CompileFault {
        CompileFault::NoMemory
    }
}
