//! Why values are not saved.
ghost use Rattle.std.specs.Prelude.{◌≡◌};
ghost use Rattle.lp_save.specs.declared.fault.SaveFault.TheVariants.{NoMemory};
ghost use Rattle.lp_save.specs.declared.fault.ReadFault.TheVariants as reading;
ghost use Rattle.lp_save.specs.declared.fault.RestoreFault.TheVariants as restoring;

use lp_cells::fault::CellFault;
use std::alloc::{AllocError, AllocFailed};
use thiserror::Error;

/// Why values are not saved.
#[derive(Debug, PartialEq, Eq, Drop, Error)]
pub enum SaveFault {
    /// Memory ran out.
    #[error("out of memory")]
    NoMemory,
    /// Arrays and mappings lie more than 100 levels deep in one another.
    #[error("too nested")]
    TooNested,
}

impl From<AllocError> for SaveFault {
    ghost from_gives = { λ _ e. e ≡ NoMemory };

    fn from(_e: AllocError) -> SaveFault {
        SaveFault::NoMemory
    }
}

impl<T: Drop> From<AllocFailed<T>> for SaveFault {
    ghost from_gives = { λ _ e. e ≡ NoMemory };

    fn from(_e: AllocFailed<T>) -> SaveFault {
        SaveFault::NoMemory
    }
}

/// What is wrong with a line of a saved text, at its leftmost fault.
#[derive(Clone, Copy, Debug, PartialEq, Eq)]
pub enum FaultKind {
    /// A first line that begins with `#` is not `#`, one of the digits 0 to 2, `:`, digits and a
    /// newline.
    BadHeader,
    /// No name and a space begin the line.
    BadName,
    /// The value is not spelled as values are, something stands behind it, or its newline is missing.
    BadValue,
    /// No array or mapping has that number, a new number is not the next one, or no array or mapping
    /// follows it.
    BadShare,
    /// A text has more than 100000 code points, an array more than 10000 items, or a mapping more than
    /// 10000 pairs.
    TooLong,
    /// Arrays and mappings lie more than 100 levels deep in one another.
    TooNested,
}

/// Why a line is not read.
#[derive(Debug, PartialEq, Eq, Drop)]
pub(crate) enum ReadFault {
    /// Memory ran out.
    NoMemory,
    /// The line is faulty.
    Wrong(FaultKind),
}

impl From<AllocError> for ReadFault {
    ghost from_gives = { λ _ e. e ≡ reading.NoMemory };

    fn from(_e: AllocError) -> ReadFault {
        ReadFault::NoMemory
    }
}

impl<T: Drop> From<AllocFailed<T>> for ReadFault {
    ghost from_gives = { λ _ e. e ≡ reading.NoMemory };

    fn from(_e: AllocFailed<T>) -> ReadFault {
        ReadFault::NoMemory
    }
}

/// Why a text is not restored.
#[derive(Debug, PartialEq, Eq, Drop, Error)]
pub enum RestoreFault {
    /// Memory ran out.
    #[error("out of memory")]
    NoMemory,
    /// The first faulty line, from 1, and what is wrong at its leftmost fault.
    #[error("faulty line {line}")]
    Line {
        /// The number of the line.
        line: u64,
        /// What is wrong.
        kind: FaultKind,
    },
}

impl From<AllocError> for RestoreFault {
    ghost from_gives = { λ _ e. e ≡ restoring.NoMemory };

    fn from(_e: AllocError) -> RestoreFault {
        RestoreFault::NoMemory
    }
}

impl<T: Drop> From<AllocFailed<T>> for RestoreFault {
    ghost from_gives = { λ _ e. e ≡ restoring.NoMemory };

    fn from(_e: AllocFailed<T>) -> RestoreFault {
        RestoreFault::NoMemory
    }
}

impl From<CellFault> for RestoreFault {
    ghost from_gives = { λ _ e. e ≡ restoring.NoMemory };

    fn from(_e: CellFault) -> RestoreFault {
        RestoreFault::NoMemory
    }
}
