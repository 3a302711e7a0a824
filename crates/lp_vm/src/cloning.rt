//! Clones of objects: how `clone_object` begins, and what follows the load of its blueprint.
ghost use Rattle.std.specs.Prelude.{◌≡◌, ◌≤◌, IfErr, IfOk, OnOk, false, length};
ghost use Rattle.std.specs.Bool.{OnTrue};
ghost use Rattle.std.specs.Str.{chars};
ghost use Rattle.std.specs.String.{string_bytes};
ghost use Rattle.lp_cells.specs.Cells.{Store};
ghost use Rattle.lp_instr.specs.declared.efun.Efun.TheVariants as efuns;
ghost use Rattle.lp_asking.specs.Endings.{IsCauseThere, IsEndingThere};
ghost use Rattle.lp_cloning.specs.Beginning.{Begins, IsReady};
ghost use Rattle.lp_cloning.specs.Feeding.{IsMaking, LoadedAs};
ghost use Rattle.lp_step.specs.Steps.{IsFit, KeepsVariables};
ghost use Rattle.lp_world.specs.Closed.{IsClosed};
ghost use Rattle.lp_vm.specs.declared.fault.VmFault.TheVariants.{NoMemory};
ghost use Rattle.lp_vm.specs.Causes.{Tells, read_of};
ghost use Rattle.lp_vm.specs.Cloning.{IsBegunThere, cloning_fault};
ghost use Rattle.lp_vm.specs.Efuns.{is_clone};
ghost use Rattle.lp_vm.specs.Making.{StandsForOne};

use crate::fault::VmFault;
use lp_asking::ending::{Cause, Ending};
use lp_asking::truth::Truthful;
use lp_cloning::begin::begin;
use lp_cloning::fault::CloningFault;
use lp_cloning::feed::loaded;
use lp_cloning::job::Begun;
use lp_instr::efun::Efun;
use lp_values::value::Value;
use lp_world::live::Live;

impl From<CloningFault> for VmFault {
    ghost from_gives = { λ x e. e ≡ cloning_fault x };

    fn from(e: CloningFault) -> VmFault {
        match e {
            CloningFault::NameTaken => VmFault::NoMemory,
            CloningFault::Swap(cause) => VmFault::Swap(cause),
            CloningFault::NoMemory => VmFault::NoMemory,
        }
    }
}

/// Whether an efun clones an object.
pub fn is_clone(efun: Efun) -> bool
    ensures value { result ≡ is_clone efun }
    ensures only { OnTrue result (efun ≡ efuns.CloneObject) }
{
    match efun {
        Efun::CloneObject => true,
        _ => false,
    }
}

/// Whether a value was thrown.
fn is_thrown(cause: &Cause) -> bool
    ensures { result ≡ false → (cells : Store) → IsCauseThere cells cause.now }
{
    match cause {
        Cause::Thrown(_) => true,
        _ => false,
    }
}

/// An end that no value comes with, as none comes with what ends at once. Of another end the answer is want of memory.
fn without_value(ending: Ending) -> Result<Ending, VmFault>
    ensures same { IfOk result (λ e. e ≡ ending) }
    ensures there { IfOk result (λ e. (cells : Store) → IsEndingThere cells e) }
    ensures fault { IfErr result (λ f. f ≡ NoMemory) }
{
    match ending {
        Ending::Value(_) => Err(VmFault::NoMemory),
        Ending::Stopped(stop) => {
            if is_thrown(&stop.cause) {
                return Err(VmFault::NoMemory);
            }
            Ok(Ending::Stopped(stop))
        }
    }
}

/// `clone_object` begins, with so many arguments on top of the stack, which are taken: it ends at once, or its blueprint is to be
/// loaded, or the clone was made.
///
/// # Errors
/// `NoMemory`, also where a live object has the name of the clone; `Swap` where the read of a program failed, or gave other bytes
/// than were written.
pub fn begin_clone<W: Truthful>(
    live: &mut Live,
    swap: &mut W,
    stack: &mut Vec<Value>,
    args: u32,
    budget: &mut u64,
) -> Result<Begun, VmFault>
    requires args { args ≤ length stack.old.items }
    requires fit { IsFit live.old stack.old.items }
    requires stands { StandsForOne (W.content swap.old) live.old }
    ensures begins { IfOk result (λ r. Begins r (W.content swap.old) live.old stack.old.items args budget.old live.new stack.new.items budget.new) }
    ensures ready { IfOk result (IsReady live.new.objects) }
    ensures there { IfOk result (λ r. (cells : Store) → IsBegunThere cells r) }
    ensures fit { OnOk result (IsFit live.new stack.new.items) }
    ensures spends { budget.new ≤ budget.old }
    ensures home { KeepsVariables live.old.objects live.new.objects }
    ensures told { W.content swap.new ≡ W.content swap.old }
    ensures tells { Tells (W.content swap.new) (W.last swap.new) (W.read_faults swap.old) (W.read_faults swap.new) (W.write_faults swap.old) (W.write_faults swap.new)
        (W.is_truthful swap.old) (W.is_truthful swap.new) (W.is_honest swap.old) (W.is_honest swap.new) live.new (read_of result) }
{
    match begin(live, swap, stack, args as usize, budget)? {
        Begun::Ends(ending) => Ok(Begun::Ends(without_value(ending)?)),
        Begun::Runs(cloning) => Ok(Begun::Runs(cloning)),
    }
}

/// The blueprint of a clone was loaded, which gave this: the clone is made of it, or it is no target.
fn clone_of_value<W: Truthful>(
    live: &mut Live,
    swap: &mut W,
    name: String,
    v: Value,
) -> Result<Begun, VmFault>
    requires closed { IsClosed live.old }
    requires stands { StandsForOne (W.content swap.old) live.old }
    ensures loaded { IfOk result (λ r. LoadedAs r (chars (string_bytes name)) (Ending.Value v) (W.content swap.old) live.old live.new) }
    ensures ready { IfOk result (IsReady live.new.objects) }
    ensures making { IfOk result IsMaking }
    ensures there { IfOk result (λ r. (cells : Store) → IsBegunThere cells r) }
    ensures closed { IsClosed live.new }
    ensures cells { live.new.cells ≡ live.old.cells }
    ensures home { KeepsVariables live.old.objects live.new.objects }
    ensures told { W.content swap.new ≡ W.content swap.old }
    ensures tells { Tells (W.content swap.new) (W.last swap.new) (W.read_faults swap.old) (W.read_faults swap.new) (W.write_faults swap.old) (W.write_faults swap.new)
        (W.is_truthful swap.old) (W.is_truthful swap.new) (W.is_honest swap.old) (W.is_honest swap.new) live.new (read_of result) }
{
    match loaded(live, swap, name, Ending::Value(v))? {
        Begun::Ends(ending) => Ok(Begun::Ends(without_value(ending)?)),
        Begun::Runs(cloning) => Ok(Begun::Runs(cloning)),
    }
}

/// The load of the blueprint of a clone ended so: with a value the clone is made of it, or that is no target; a stop ends the job.
///
/// # Errors
/// As of `begin_clone`.
pub fn clone_loaded<W: Truthful>(
    live: &mut Live,
    swap: &mut W,
    name: String,
    ending: Ending,
) -> Result<Begun, VmFault>
    requires closed { IsClosed live.old }
    requires stands { StandsForOne (W.content swap.old) live.old }
    ensures loaded { IfOk result (λ r. LoadedAs r (chars (string_bytes name)) ending (W.content swap.old) live.old live.new) }
    ensures ready { IfOk result (IsReady live.new.objects) }
    ensures making { IfOk result IsMaking }
    ensures there { IfOk result (λ r. (cells : Store) → IsEndingThere cells ending → IsBegunThere cells r) }
    ensures closed { IsClosed live.new }
    ensures cells { live.new.cells ≡ live.old.cells }
    ensures home { KeepsVariables live.old.objects live.new.objects }
    ensures told { W.content swap.new ≡ W.content swap.old }
    ensures tells { Tells (W.content swap.new) (W.last swap.new) (W.read_faults swap.old) (W.read_faults swap.new) (W.write_faults swap.old) (W.write_faults swap.new)
        (W.is_truthful swap.old) (W.is_truthful swap.new) (W.is_honest swap.old) (W.is_honest swap.new) live.new (read_of result) }
{
    match ending {
        Ending::Value(v) => clone_of_value(live, swap, name, v),
        Ending::Stopped(stop) => Ok(Begun::Ends(Ending::Stopped(stop))),
    }
}
