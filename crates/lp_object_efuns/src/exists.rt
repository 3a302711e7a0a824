//! `function_exists`.
ghost use Rattle.std.specs.Prelude.{◌≡◌, All, IfOk, List};
ghost use Rattle.lp_cells.specs.Cells.{IsThere};
ghost use Rattle.lp_code.specs.declared.program.RawProgram.{RawProgram as Raw};
ghost use Rattle.lp_instr.specs.EfunList.{efun_name};
ghost use Rattle.lp_language.specs.World.{World};
ghost use Rattle.lp_values.specs.Errors.{bad_arg};
ghost use Rattle.lp_world.specs.Closed.{IsClosed};
ghost use Rattle.lp_world.specs.Stands.{Stands};
ghost use Rattle.lp_targets.specs.Brought.{Brings};
ghost use Rattle.lp_efuns.specs.declared.answer.Did.{Did as D};
ghost use Rattle.lp_efuns.specs.Plain.{IsAnswerThere, IsDidThere};
ghost use Rattle.lp_object_efuns.specs.Exists.{CallsOver, DoesOver};

use crate::programs::program_found;
use lp_efuns::answer::{Answer, Did};
use lp_efuns::arguments::text_at;
use lp_efuns::caller::Caller;
use lp_efuns::plain::{bad_argument, finish, pay_wide};
use lp_efuns::subjects::subject;
use lp_instr::efun::Efun;
use lp_residence::answers::EnterFault;
use lp_swapfile::SwapFile;
use lp_value_efuns::fit::first_bad;
use lp_value_efuns::price::price_before;
use lp_values::error::RunError;
use lp_values::value::Value;
use lp_world::live::Live;
use std::alloc::{AllocError, Global};

/// The refusal of a missing object.
fn no_object(alloc: Global) -> Result<Did, AllocError>
    ensures { IfOk result (λ d. d ≡ D.Error (bad_arg 2 (efun_name Efun.FunctionExists))) }
{
    Ok(Did::Error(RunError::bad_arg(alloc, 2, Efun::FunctionExists.name())?))
}

/// What the efun comes to.
pub(crate) fn did<W: SwapFile>(
    live: &mut Live,
    swap: &mut W,
    caller: &Caller<'_>,
    args: &[Value],
) -> Result<Did, EnterFault>
    requires closed { IsClosed live.old }
    ensures brings { Brings (W.content swap.old) (W.content swap.new) (W.last swap.new) (W.read_faults swap.old) (W.read_faults swap.new) (W.write_faults swap.old) (W.write_faults swap.new)
        (W.is_truthful swap.old) (W.is_truthful swap.new) (W.is_honest swap.old) (W.is_honest swap.new) live.old live.new result }
    ensures closed { IsClosed live.new }
    ensures stands { W.is_truthful swap.new → (programs : List Raw) (w : World) → Stands (W.content swap.old) programs live.old w → Stands (W.content swap.new) programs live.new w }
    ensures does { W.is_truthful swap.new → IfOk result (λ d. DoesOver Efun.FunctionExists caller.now args.now (W.content swap.old) live.old d live.new) }
    ensures there { IfOk result (λ d. IsDidThere live.new.cells d) }
{
    match subject(args, 1, caller.this, &live.objects) {
        Some(ob) => match program_found(live, swap, ob, text_at(args, 0)) {
            Ok(v) => Ok(Did::Value(v)),
            Err(e) => Err(e),
        },
        None => match no_object(live.alloc) {
            Ok(d) => Ok(d),
            Err(_) => Err(EnterFault::NoMemory),
        },
    }
}

/// Carries out `function_exists`, with these arguments, first to last: the path without `.c` of the program in whose text the
/// function of the name stands that a call in the object would reach, or 0 where it has none or a private one.
///
/// The price before is paid first; then the first argument of another kind than the efun takes is an error; then the program of
/// the object's version comes into memory, where it is out.
///
/// # Errors
/// `Swap` where the read of the program failed, or gave other bytes than were written; it is out still. `NoMemory` also where
/// bytes of the right digest are none that fit. The state is closed after each, and what was in memory is there still.
pub fn function_exists<W: SwapFile>(
    live: &mut Live,
    swap: &mut W,
    caller: &Caller<'_>,
    args: &[Value],
    budget: &mut u64,
) -> Result<Answer, EnterFault>
    requires closed { IsClosed live.old }
    requires there { All (IsThere live.old.cells) args.now }
    ensures brings { Brings (W.content swap.old) (W.content swap.new) (W.last swap.new) (W.read_faults swap.old) (W.read_faults swap.new) (W.write_faults swap.old) (W.write_faults swap.new)
        (W.is_truthful swap.old) (W.is_truthful swap.new) (W.is_honest swap.old) (W.is_honest swap.new) live.old live.new result }
    ensures closed { IsClosed live.new }
    ensures stands { W.is_truthful swap.new → (programs : List Raw) (w : World) → Stands (W.content swap.old) programs live.old w → Stands (W.content swap.new) programs live.new w }
    ensures calls { W.is_truthful swap.new → IfOk result (λ a. CallsOver Efun.FunctionExists caller.now args.now (W.content swap.old) live.old budget.old a live.new budget.new) }
    ensures there { IfOk result (λ a. IsAnswerThere live.new.cells a) }
{
    let before = price_before(Efun::FunctionExists, args, &live.cells, &live.objects);
    let is_paid = pay_wide(budget, before);
    if !is_paid {
        return Ok(Answer::Spent);
    }
    match first_bad(Efun::FunctionExists, args, &live.objects) {
        Some(number) => match bad_argument(live.alloc, Efun::FunctionExists, number) {
            Ok(a) => Ok(a),
            Err(_) => Err(EnterFault::NoMemory),
        },
        None => match did(live, swap, caller, args) {
            Ok(d) => Ok(finish(Efun::FunctionExists, d, &live.cells, &live.objects, budget)),
            Err(e) => Err(e),
        },
    }
}
