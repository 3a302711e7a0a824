//! What a check of types tells.
ghost use Rattle.std.specs.Prelude.{◌≡◌};
ghost use Rattle.lp_types.specs.declared.fault.TypeFaults.TheVariants.{NoMemory};

use lp_types_expr::fault::FaultAt;
use std::alloc::AllocError;

/// Why a unit is not said to be well typed.
#[derive(Debug, Drop)]
pub enum TypeFaults {
    /// There was no memory for the check.
    NoMemory,
    /// Its faults, in the order of the tokens: one at least.
    Faults(Vec<FaultAt>),
}

impl From<AllocError> for TypeFaults {
    ghost from_gives = { λ _ e. e ≡ NoMemory };

    fn from(_error: AllocError) -> TypeFaults {
        TypeFaults::NoMemory
    }
}
