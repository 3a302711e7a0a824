//! An object is loaded by its name for the driver.
ghost use Rattle.std.specs.Prelude.{◌≤◌, IfOk, OnOk};
ghost use Rattle.lp_loading.specs.Going.{IsAnswerThere};
ghost use Rattle.lp_step.specs.Steps.{IsFit, KeepsVariables};
ghost use Rattle.lp_vm.specs.Answering.{IsSameAsker};
ghost use Rattle.lp_vm.specs.Causes.{Tells, read_of};
ghost use Rattle.lp_vm.specs.ObjectLoading.{CanLoadObject, LoadIsMeant};

use crate::cycle::load;
use crate::fault::VmFault;
use lp_asking::asker::Asker;
use lp_asking::truth::Truthful;
use lp_front_end::law_there_is_one;
use lp_loading::job::{Answer, Purpose};
use lp_values::value::Value;
use lp_world::live::Live;
use std::alloc::Global;

/// Loads the object with a name for the driver: it ends with the object, which may be dead by then, with the faults of a file, or
/// with a stop. 1000 are paid first. The driver has no callers.
///
/// # Errors
/// `NoMemory`, also where the swap file gave other bytes of the same digest, a number of a program has no room, or a live
/// object has the name already; `Swap` where the swap file failed or gave bytes of another digest. Nothing is said of the state then.
pub fn load_object<W: Truthful>(
    alloc: Global,
    live: &mut Live,
    swap: &mut W,
    stack: &mut Vec<Value>,
    asker: &mut Asker,
    name: &[char],
    budget: &mut u64,
) -> Result<Answer, VmFault>
    requires fit { IsFit live.old stack.old.items }
    requires can { CanLoadObject name.now (W.content swap.old) live.old asker.old budget.old }
    ensures meant { IfOk result (λ r. LoadIsMeant name.now (W.content swap.old) live.old stack.old.items asker.old budget.old (W.content swap.new) live.new stack.new.items asker.new budget.new r) }
    ensures asker { OnOk result (IsSameAsker asker.old asker.new) }
    ensures spends { OnOk result (budget.new ≤ budget.old) }
    ensures home { OnOk result (KeepsVariables live.old.objects live.new.objects) }
    ensures fit { OnOk result (IsFit live.new stack.new.items) }
    ensures there { IfOk result (λ r. IsAnswerThere live.new.cells r) }
    ensures tells { Tells (W.content swap.new) (W.last swap.new) (W.read_faults swap.old) (W.read_faults swap.new) (W.write_faults swap.old) (W.write_faults swap.new)
        (W.is_truthful swap.old) (W.is_truthful swap.new) (W.is_honest swap.old) (W.is_honest swap.new) live.new (read_of result) }
{
    law_there_is_one();
    load(
        alloc,
        live,
        swap,
        stack,
        asker,
        None,
        None,
        name,
        Purpose::Wanted,
        budget,
    )
}
