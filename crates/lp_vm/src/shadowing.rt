//! The efun `shadow` begins, for which the programs of both objects come into memory.
ghost use Rattle.std.specs.Prelude.{◌≡◌, ◌≤◌, IfOk, IsSome, OnOk, length};
ghost use Rattle.std.specs.Bool.{OnTrue};
ghost use Rattle.lp_calling.specs.Beginning.{IsBegunReady, IsBegunThere};
ghost use Rattle.lp_instr.specs.declared.efun.Efun.TheVariants as efuns;
ghost use Rattle.lp_shadowing.specs.Shadowing.{BeginsShadow};
ghost use Rattle.lp_step.specs.Steps.{IsFit};
ghost use Rattle.lp_targets.specs.Brought.{Brings};
ghost use Rattle.lp_world.specs.Rows.{row_at};
ghost use Rattle.lp_vm.specs.declared.request.Request.TheVariants as requests;
ghost use Rattle.lp_vm.specs.Answering.{CanServe};
ghost use Rattle.lp_vm.specs.Causes.{Tells, read_of};
ghost use Rattle.lp_vm.specs.Efuns.{is_shadow};
ghost use Rattle.lp_vm.specs.Looking.{BeginsEfun};

use crate::efuns::{EfunBegun, ending_of};
use crate::fault::VmFault;
use lp_asking::asker::Asker;
use lp_asking::ending::Place;
use lp_asking::truth::Truthful;
use lp_calling::job::Begun;
use lp_efuns::caller::Caller;
use lp_instr::efun::Efun;
use lp_residence::answers::EnterFault;
use lp_shadowing::shadowing::begin_shadow;
use lp_values::value::Value;
use lp_world::live::Live;

/// Whether an efun lets an object shadow another one.
pub fn is_shadow(efun: Efun) -> bool
    ensures value { result ≡ is_shadow efun }
    ensures only { OnTrue result (efun ≡ efuns.Shadow) }
{
    match efun {
        Efun::Shadow => true,
        _ => false,
    }
}

/// How `shadow` begins, where the device tells the truth.
fn begin_with_programs<W: Truthful>(
    live: &mut Live,
    swap: &mut W,
    caller: &Caller<'_>,
    stack: &mut Vec<Value>,
    args: usize,
    budget: &mut u64,
) -> Result<Begun, EnterFault>
    requires args { args ≤ length stack.old.items }
    requires fit { IsFit live.old stack.old.items }
    requires here { IsSome (row_at live.old.objects caller.now.this.0) }
    ensures brings { Brings (W.content swap.old) (W.content swap.new) (W.last swap.new) (W.read_faults swap.old) (W.read_faults swap.new) (W.write_faults swap.old) (W.write_faults swap.new)
        (W.is_truthful swap.old) (W.is_truthful swap.new) (W.is_honest swap.old) (W.is_honest swap.new) live.old live.new result }
    ensures begins { IfOk result (λ r. BeginsShadow r caller.now (W.content swap.old) live.old stack.old.items args budget.old live.new stack.new.items budget.new) }
    ensures fit { OnOk result (IsFit live.new stack.new.items) }
    ensures there { IfOk result (IsBegunThere live.new.cells) }
    ensures ready { IfOk result (IsBegunReady live.new.objects) }
    ensures spends { budget.new ≤ budget.old }
{
    match begin_shadow(live, swap, caller, stack, args, budget) {
        Ok(r) => {
            if swap.tells_truth() {
                Ok(r)
            } else {
                Err(EnterFault::NoMemory)
            }
        }
        Err(e) => Err(e),
    }
}

/// `shadow` begins, which the function at a place calls, with so many arguments on top of the stack, which are taken: it is answered,
/// or goes on as a job, which asks the master. The programs of both objects come into memory.
///
/// # Errors
/// `Swap` where the read of a program failed, or gave other bytes than were written; it is out still. `NoMemory`, also where
/// the device did not tell the truth.
pub fn shadowing<W: Truthful>(
    live: &mut Live,
    swap: &mut W,
    stack: &mut Vec<Value>,
    asker: &Asker,
    at: Place,
    efun: Efun,
    args: u32,
    budget: &mut u64,
) -> Result<EfunBegun, VmFault>
    requires shadow { efun ≡ efuns.Shadow }
    requires fit { IsFit live.old stack.old.items }
    requires can { CanServe (W.content swap.old) live.old stack.old.items asker.now budget.old (requests.Efun at efun) args }
    ensures begins { IfOk result (λ r. BeginsEfun r at efun args (W.content swap.old) live.old stack.old.items asker.now budget.old (W.content swap.new) live.new stack.new.items asker.now budget.new) }
    ensures tells { Tells (W.content swap.new) (W.last swap.new) (W.read_faults swap.old) (W.read_faults swap.new) (W.write_faults swap.old) (W.write_faults swap.new)
        (W.is_truthful swap.old) (W.is_truthful swap.new) (W.is_honest swap.old) (W.is_honest swap.new) live.new (read_of result) }
{
    let caller = Caller {
        this: at.this,
        interactive: asker.interactive,
        callers: asker.callers.as_slice(),
    };
    match begin_with_programs(live, swap, &caller, stack, args as usize, budget)? {
        Begun::Ends(answer) => Ok(EfunBegun::Answered(ending_of(answer))),
        Begun::Runs(job) => Ok(EfunBegun::Works(job)),
    }
}
