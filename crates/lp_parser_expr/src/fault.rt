//! Why tokens are no expression.
ghost use Rattle.std.specs.Prelude.{◌≡◌};

use std::alloc::AllocError;
use thiserror::Error;

/// Why tokens are no expression.
#[derive(Debug, PartialEq, Eq, Drop, Error)]
pub enum ParseFault {
    /// Memory ran out.
    #[error("out of memory")]
    NoMemory,
    /// A token with which nothing goes on, or an early end.
    #[error("unexpected token in line {line}")]
    Unexpected {
        /// The line of the token, or of the last one, or 0 where there is none.
        line: u32,
    },
    /// A token up to which everything that begins so has something deeper than 200.
    #[error("nested too deep in line {line}")]
    TooNested {
        /// The line of the token.
        line: u32,
    },
}

impl From<AllocError> for ParseFault {
    ghost use Rattle.lp_parser_expr.specs.declared.fault.ParseFault.TheVariants.{NoMemory};

    ghost from_gives = { λ _ e. e ≡ NoMemory };

    fn from(_: AllocError) -> Self {
        ParseFault::NoMemory
    }
}

/// Why the machine stopped short of an expression, with the place of the token.
#[derive(Clone, Copy, Debug, PartialEq, Eq)]
pub enum Stop {
    /// Memory ran out.
    NoMemory,
    /// A token that is refused, or the end.
    Unexpected(usize),
    /// A token that leads too deep.
    TooNested(usize),
}

impl From<AllocError> for Stop {
    ghost use Rattle.lp_parser_expr.specs.declared.fault.Stop.TheVariants.{NoMemory};

    ghost from_gives = { λ _ e. e ≡ NoMemory };

    fn from(_: AllocError) -> Self {
        Stop::NoMemory
    }
}
