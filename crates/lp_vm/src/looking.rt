//! Efuns that a running function calls begin, also those for which programs come into memory.
ghost use Rattle.std.specs.Prelude.{◌≡◌, All, IfOk, IsSome, true};
ghost use Rattle.lp_cells.specs.Cells.{IsThere};
ghost use Rattle.lp_world.specs.Closed.{IsClosed};
ghost use Rattle.lp_world.specs.Rows.{row_at};
ghost use Rattle.lp_step.specs.Steps.{IsFit};
ghost use Rattle.lp_efuns.specs.Plain.{IsAnswerThere};
ghost use Rattle.lp_targets.specs.Brought.{Brings};
ghost use Rattle.lp_object_efuns.specs.Called.{CallsWithProgram, brought, is_with_program};
ghost use Rattle.lp_vm.specs.declared.request.Request.TheVariants as requests;
ghost use Rattle.lp_vm.specs.Answering.{CanServe};
ghost use Rattle.lp_vm.specs.Causes.{Tells, read_of};
ghost use Rattle.lp_vm.specs.Efuns.{HasNoSteps};
ghost use Rattle.lp_vm.specs.Looking.{BeginsEfun};

use crate::efuns::{EfunBegun, begin_efun, ending_of, topmost};
use crate::fault::VmFault;
use crate::shadowing::{is_shadow, shadowing};
use lp_asking::asker::Asker;
use lp_asking::ending::Place;
use lp_asking::resume::drop_top;
use lp_asking::truth::Truthful;
use lp_efuns::answer::Answer;
use lp_efuns::caller::{Caller, Turn};
use lp_instr::efun::Efun;
use lp_object_efuns::called::{call_with_program, is_with_program};
use lp_residence::answers::EnterFault;
use lp_values::value::Value;
use lp_world::live::Live;

/// What an efun about a function of an object answers, where the device tells the truth.
fn called<W: Truthful>(
    live: &mut Live,
    swap: &mut W,
    turn: &Turn,
    caller: &Caller<'_>,
    efun: Efun,
    args: &[Value],
    budget: &mut u64,
) -> Result<Answer, EnterFault>
    requires with_program { is_with_program efun ≡ true }
    requires closed { IsClosed live.old }
    requires here { IsSome (row_at live.old.objects caller.now.this.0) }
    requires there { All (IsThere live.old.cells) args.now }
    ensures brings { Brings (W.content swap.old) (W.content swap.new) (W.last swap.new) (W.read_faults swap.old) (W.read_faults swap.new) (W.write_faults swap.old) (W.write_faults swap.new)
        (W.is_truthful swap.old) (W.is_truthful swap.new) (W.is_honest swap.old) (W.is_honest swap.new) live.old (brought live.old live.new) result }
    ensures closed { IsClosed live.new }
    ensures calls { IfOk result (λ a. CallsWithProgram efun caller.now args.now (W.content swap.old) live.old turn.now budget.old a live.new budget.new) }
    ensures there { IfOk result (λ a. IsAnswerThere live.new.cells a) }
{
    match call_with_program(live, swap, turn, caller, efun, args, budget) {
        Ok(answer) => {
            if swap.tells_truth() {
                Ok(answer)
            } else {
                Err(EnterFault::NoMemory)
            }
        }
        Err(e) => Err(e),
    }
}

/// An efun about a function of an object is carried out: the program of that object comes into memory.
///
/// # Errors
/// `Swap` where the read of the program failed, or gave other bytes than were written; it is out still. `NoMemory`, also where
/// the device did not tell the truth.
fn looking<W: Truthful>(
    live: &mut Live,
    swap: &mut W,
    stack: &mut Vec<Value>,
    asker: &Asker,
    at: Place,
    efun: Efun,
    args: u32,
    budget: &mut u64,
) -> Result<EfunBegun, VmFault>
    requires with_program { is_with_program efun ≡ true }
    requires fit { IsFit live.old stack.old.items }
    requires can { CanServe (W.content swap.old) live.old stack.old.items asker.now budget.old (requests.Efun at efun) args }
    ensures begins { IfOk result (λ r. BeginsEfun r at efun args (W.content swap.old) live.old stack.old.items asker.now budget.old (W.content swap.new) live.new stack.new.items asker.now budget.new) }
    ensures tells { Tells (W.content swap.new) (W.last swap.new) (W.read_faults swap.old) (W.read_faults swap.new) (W.write_faults swap.old) (W.write_faults swap.new)
        (W.is_truthful swap.old) (W.is_truthful swap.new) (W.is_honest swap.old) (W.is_honest swap.new) live.new (read_of result) }
{
    let caller = Caller {
        this: at.this,
        interactive: asker.interactive,
        callers: asker.callers.as_slice(),
    };
    let answer = called(
        live,
        swap,
        &asker.turn,
        &caller,
        efun,
        topmost(stack, args),
        budget,
    )?;
    drop_top(stack, args as usize);
    Ok(EfunBegun::Answered(ending_of(answer)))
}

/// An efun begins that the function at a place calls, with so many arguments on top of the stack, which are taken: it is
/// answered, or goes on as a job. The program comes into memory into which an efun about a function of an object looks, and so do those
/// of both objects where one is to shadow the other. `clone_object` and `command` do not begin so.
///
/// # Errors
/// `NoMemory` and `Swap` of such an efun; `NoMemory` of every other efun.
pub fn start_efun<W: Truthful>(
    live: &mut Live,
    swap: &mut W,
    stack: &mut Vec<Value>,
    asker: &mut Asker,
    at: Place,
    efun: Efun,
    args: u32,
    budget: &mut u64,
) -> Result<EfunBegun, VmFault>
    requires steps { HasNoSteps efun }
    requires fit { IsFit live.old stack.old.items }
    requires can { CanServe (W.content swap.old) live.old stack.old.items asker.old budget.old (requests.Efun at efun) args }
    ensures begins { IfOk result (λ r. BeginsEfun r at efun args (W.content swap.old) live.old stack.old.items asker.old budget.old (W.content swap.new) live.new stack.new.items asker.new budget.new) }
    ensures tells { Tells (W.content swap.new) (W.last swap.new) (W.read_faults swap.old) (W.read_faults swap.new) (W.write_faults swap.old) (W.write_faults swap.new)
        (W.is_truthful swap.old) (W.is_truthful swap.new) (W.is_honest swap.old) (W.is_honest swap.new) live.new (read_of result) }
{
    if is_with_program(efun) {
        return looking(live, swap, stack, asker, at, efun, args, budget);
    }
    if is_shadow(efun) {
        return shadowing(live, swap, stack, asker, at, efun, args, budget);
    }
    begin_efun(live, stack, asker, at, efun, args, budget)
}
