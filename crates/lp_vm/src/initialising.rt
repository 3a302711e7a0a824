//! The initialisers of a part of an object's program are called.
ghost use Rattle.std.specs.Prelude.{◌≤◌, IfOk, IsSome, OnOk};
ghost use Rattle.lp_step.specs.Steps.{IsFit, KeepsVariables};
ghost use Rattle.lp_world.specs.Rows.{row_at};
ghost use Rattle.lp_asking.specs.Endings.{IsEndingThere};
ghost use Rattle.lp_vm.specs.Answering.{IsSameAsker};
ghost use Rattle.lp_vm.specs.Causes.{Tells, read_of};
ghost use Rattle.lp_vm.specs.Initialising.{CanCallInitialisers, InitialisingIsMeant};

use crate::cycle::answer;
use crate::fault::VmFault;
use lp_asking::asker::Asker;
use lp_asking::ending::Ending;
use lp_asking::truth::Truthful;
use lp_front_end::law_there_is_one;
use lp_reaching::initialising::find_initialisers;
use lp_values::id::ObjId;
use lp_values::value::Value;
use lp_world::live::Live;
use std::alloc::Global;

/// Calls the initialisers of one part of an object's program, which has some, as one function without parameters. Its callers
/// are those of who asks, with `caller` as the latest, if one is given.
///
/// # Errors
/// `NoMemory`, also where the swap file gave other bytes of the same digest; `Swap` where it failed or gave bytes of another
/// digest. Nothing is said of the state then.
pub fn initialise<W: Truthful>(
    alloc: Global,
    live: &mut Live,
    swap: &mut W,
    stack: &mut Vec<Value>,
    asker: &mut Asker,
    caller: Option<ObjId>,
    ob: ObjId,
    part: u16,
    budget: &mut u64,
) -> Result<Ending, VmFault>
    requires fit { IsFit live.old stack.old.items }
    requires object { IsSome (row_at live.old.objects ob.0) }
    requires can { CanCallInitialisers caller ob part (W.content swap.old) live.old stack.old.items asker.old budget.old }
    ensures meant { IfOk result (λ e. InitialisingIsMeant caller ob part (W.content swap.old) live.old stack.old.items asker.old budget.old (W.content swap.new) live.new stack.new.items asker.new budget.new e) }
    ensures asker { OnOk result (IsSameAsker asker.old asker.new) }
    ensures spends { OnOk result (budget.new ≤ budget.old) }
    ensures home { OnOk result (KeepsVariables live.old.objects live.new.objects) }
    ensures fit { OnOk result (IsFit live.new stack.new.items) }
    ensures there { IfOk result (λ e. IsEndingThere live.new.cells e) }
    ensures tells { Tells (W.content swap.new) (W.last swap.new) (W.read_faults swap.old) (W.read_faults swap.new) (W.write_faults swap.old) (W.write_faults swap.new)
        (W.is_truthful swap.old) (W.is_truthful swap.new) (W.is_honest swap.old) (W.is_honest swap.new) live.new (read_of result) }
{
    law_there_is_one();
    let reached = find_initialisers(live, swap, caller, ob, part)?;
    answer(alloc, live, swap, stack, asker, reached, 0, budget)
}
