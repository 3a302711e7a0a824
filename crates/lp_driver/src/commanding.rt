//! Commands of the driver: an object carries out a line.
ghost use Rattle.std.specs.Prelude.{◌≡◌, [], IfOk, List, OnOk};
ghost use Rattle.lp_values.specs.declared.value.Value.{Value as V};
ghost use Rattle.lp_language.specs.Course as course;
ghost use Rattle.lp_world.specs.Closed.{IsClosed};
ghost use Rattle.lp_turn.specs.Calls.{IsCallEndThere};
ghost use Rattle.lp_vm.specs.Causes.{Tells, read_of};
ghost use Rattle.lp_driver.specs.Carrying.{CarriesOut, RestsForOne};

use crate::asking::asker_for;
use crate::carrying::FULL_BUDGET;
use lp_asking::truth::Truthful;
use lp_front_end::law_there_is_one;
use lp_turn::job::CallEnd;
use lp_values::id::ObjId;
use lp_values::text::Text;
use lp_values::value::Value;
use lp_vm::command::command;
use lp_vm::fault::VmFault;
use lp_world::live::Live;

/// An object carries out a line.
///
/// # Errors
/// As where a function of an object is applied.
pub(crate) fn carry_command<W: Truthful>(
    live: &mut Live,
    swap: &mut W,
    stack: &mut Vec<Value>,
    o: ObjId,
    line: &Text,
    player: Option<ObjId>,
    interactive: Option<ObjId>,
) -> Result<CallEnd, VmFault>
    requires closed { IsClosed live.old }
    requires empty { stack.old.items ≡ [] }
    requires rests { RestsForOne (W.content swap.old) live.old }
    ensures carries { IfOk result (λ e. (xs : List V) → CarriesOut (course.Command o line.now) player interactive xs (W.content swap.old) live.old (W.content swap.new) live.new e) }
    ensures there { IfOk result (λ e. IsCallEndThere live.new.cells e) }
    ensures closed { OnOk result (IsClosed live.new) }
    ensures empty { OnOk result (stack.new.items ≡ []) }
    ensures rests { OnOk result (RestsForOne (W.content swap.new) live.new) }
    ensures tells { Tells (W.content swap.new) (W.last swap.new) (W.read_faults swap.old) (W.read_faults swap.new) (W.write_faults swap.old) (W.write_faults swap.new)
        (W.is_truthful swap.old) (W.is_truthful swap.new) (W.is_honest swap.old) (W.is_honest swap.new) live.new (read_of result) }
{
    law_there_is_one();
    let alloc = live.alloc;
    let mut asker = asker_for(alloc, player, interactive);
    let mut budget = FULL_BUDGET;
    let ending = command(
        alloc,
        live,
        swap,
        stack,
        &mut asker,
        None,
        o,
        line.as_slice(),
        &mut budget,
    )?;
    Ok(CallEnd::Ended(ending))
}
