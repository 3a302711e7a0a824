//! Errors that efuns about functions come to.
ghost use Rattle.std.specs.Prelude.{◌≡◌, IfOk};
ghost use Rattle.lp_instr.specs.EfunList.{efun_name};
ghost use Rattle.lp_values.specs.Errors.{bad_arg, plain};
ghost use Rattle.lp_efuns.specs.declared.answer.Did.{Did as D};

use lp_efuns::answer::Did;
use lp_instr::efun::Efun;
use lp_values::error::{ErrorKind, RunError};
use std::alloc::{AllocError, Global};

/// The refusal of a second argument.
pub fn bad_second(alloc: Global, efun: Efun) -> Result<Did, AllocError>
    ensures { IfOk result (λ d. d ≡ D.Error (bad_arg 2 (efun_name efun))) }
{
    Ok(Did::Error(RunError::bad_arg(alloc, 2, efun.name())?))
}

/// An error of a kind whose words are its whole text.
pub fn refusal(alloc: Global, kind: ErrorKind) -> Result<Did, AllocError>
    ensures { IfOk result (λ d. d ≡ D.Error (plain kind)) }
{
    Ok(Did::Error(RunError::plain(alloc, kind)?))
}
