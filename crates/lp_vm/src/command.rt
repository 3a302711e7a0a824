//! A living object carries out a line.
ghost use Rattle.std.specs.Prelude.{◌≤◌, IfOk, OnOk};
ghost use Rattle.lp_step.specs.Steps.{IsFit, KeepsVariables};
ghost use Rattle.lp_asking.specs.Endings.{IsEndingThere};
ghost use Rattle.lp_vm.specs.Answering.{IsSameAsker};
ghost use Rattle.lp_vm.specs.Causes.{Tells, read_of};
ghost use Rattle.lp_vm.specs.Commanding.{CanCommand, CommandIsMeant};

use crate::cycle::obey;
use crate::fault::VmFault;
use lp_asking::asker::Asker;
use lp_asking::ending::Ending;
use lp_asking::truth::Truthful;
use lp_front_end::law_there_is_one;
use lp_values::id::ObjId;
use lp_values::value::Value;
use lp_world::live::Live;
use std::alloc::Global;

/// A living object carries out a line, as the driver asks or an efun: an empty line does nothing, and the answer is 0. With another
/// line a command runs, within those that run already: the actions that the object holds for the verb are applied in their order,
/// each with the argument of the line, while it is held and its giver is live; the first answer that is not 0 ends the search with
/// 1. Where there is none, the object is told so by its connection, or else by `catch_tell`, and the answer is 0. The command
/// runs no longer then, however it ends. `this_player()` of who asks is that of the functions; their callers are those of who asks,
/// with `caller` as the latest, if one is given.
///
/// # Errors
/// `NoMemory`, also where the swap file gave other bytes of the same digest; `Swap` where it failed or gave bytes of another
/// digest. Nothing is said of the state then.
pub fn command<W: Truthful>(
    alloc: Global,
    live: &mut Live,
    swap: &mut W,
    stack: &mut Vec<Value>,
    asker: &mut Asker,
    caller: Option<ObjId>,
    holder: ObjId,
    line: &[char],
    budget: &mut u64,
) -> Result<Ending, VmFault>
    requires fit { IsFit live.old stack.old.items }
    requires can { CanCommand caller holder line.now (W.content swap.old) live.old stack.old.items asker.old budget.old }
    ensures meant { IfOk result (λ e. CommandIsMeant caller holder line.now (W.content swap.old) live.old stack.old.items asker.old budget.old (W.content swap.new) live.new stack.new.items asker.new budget.new e) }
    ensures asker { OnOk result (IsSameAsker asker.old asker.new) }
    ensures spends { OnOk result (budget.new ≤ budget.old) }
    ensures home { OnOk result (KeepsVariables live.old.objects live.new.objects) }
    ensures fit { OnOk result (IsFit live.new stack.new.items) }
    ensures there { IfOk result (λ e. IsEndingThere live.new.cells e) }
    ensures tells { Tells (W.content swap.new) (W.last swap.new) (W.read_faults swap.old) (W.read_faults swap.new) (W.write_faults swap.old) (W.write_faults swap.new)
        (W.is_truthful swap.old) (W.is_truthful swap.new) (W.is_honest swap.old) (W.is_honest swap.new) live.new (read_of result) }
{
    law_there_is_one();
    obey(
        alloc, live, swap, stack, asker, caller, holder, line, budget,
    )
}
