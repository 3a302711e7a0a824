//! Calls of the driver are carried out.
ghost use Rattle.std.specs.Prelude.{◌≡◌, [], All, IfOk, IsSome, List, OnOk};
ghost use Rattle.lp_values.specs.declared.value.Value.{Value as V};
ghost use Rattle.lp_cells.specs.Cells.{IsThere, Store};
ghost use Rattle.lp_code.specs.declared.program.RawProgram.{RawProgram};
ghost use Rattle.lp_language.specs.Course as course;
ghost use Rattle.lp_language.specs.World.{World};
ghost use Rattle.lp_vm.specs.LoadGoing.{IsAnswerThere};
ghost use Rattle.lp_world.specs.Closed.{IsClosed};
ghost use Rattle.lp_world.specs.Rows.{row_at};
ghost use Rattle.lp_turn.specs.Calls.{IsAskedThere, IsCallEndThere, IsEndOf};
ghost use Rattle.lp_vm.specs.Causes.{Tells, read_of};
ghost use Rattle.lp_vm.specs.ObjectLoading.{IsLoadAnswer};
ghost use Rattle.lp_driver.specs.Carrying.{Carries, CarriesOut, RestsForOne};

use crate::asking::{asker_for, lay};
use crate::commanding::carry_command;
use lp_asking::ending::Ending;
use lp_asking::truth::Truthful;
use lp_front_end::law_there_is_one;
use lp_turn::job::{Asked, Call, CallEnd};
use lp_values::id::ObjId;
use lp_values::text::Text;
use lp_values::value::Value;
use lp_vm::Answer;
use lp_vm::calling::call;
use lp_vm::fault::VmFault;
use lp_vm::object_loading::load_object;
use lp_world::live::Live;

/// The full budget of each call of the driver.
pub(crate) const FULL_BUDGET: u64 = 1000000;

/// A function of an object is applied. There is none by a name with letters beyond ASCII.
fn apply<W: Truthful>(
    live: &mut Live,
    swap: &mut W,
    stack: &mut Vec<Value>,
    o: ObjId,
    name: &Text,
    player: Option<ObjId>,
    interactive: Option<ObjId>,
    arguments: Vec<Value>,
) -> Result<CallEnd, VmFault>
    requires closed { IsClosed live.old }
    requires empty { stack.old.items ≡ [] }
    requires rests { RestsForOne (W.content swap.old) live.old }
    requires object { IsSome (row_at live.old.objects o.0) }
    requires values { All (IsThere live.old.cells) arguments.items }
    ensures carries { IfOk result (λ e. CarriesOut (course.Apply o name.now) player interactive arguments.items (W.content swap.old) live.old (W.content swap.new) live.new e) }
    ensures there { IfOk result (λ e. IsCallEndThere live.new.cells e) }
    ensures closed { OnOk result (IsClosed live.new) }
    ensures empty { OnOk result (stack.new.items ≡ []) }
    ensures rests { OnOk result (RestsForOne (W.content swap.new) live.new) }
    ensures tells { Tells (W.content swap.new) (W.last swap.new) (W.read_faults swap.old) (W.read_faults swap.new) (W.write_faults swap.old) (W.write_faults swap.new)
        (W.is_truthful swap.old) (W.is_truthful swap.new) (W.is_honest swap.old) (W.is_honest swap.new) live.new (read_of result) }
{
    law_there_is_one();
    let alloc = live.alloc;
    let args = lay(stack, arguments)?;
    let mut asker = asker_for(alloc, player, interactive);
    let mut budget = FULL_BUDGET;
    let ending = call(
        alloc,
        live,
        swap,
        stack,
        &mut asker,
        None,
        o,
        name,
        args,
        &mut budget,
    )?;
    Ok(CallEnd::Ended(ending))
}

/// How a load ended, as how a call of the driver does.
fn end_of_load(answer: Answer) -> CallEnd
    ensures end { (programs : List RawProgram) (w : World) (a : course.Answer) → IsLoadAnswer programs w answer a → IsEndOf programs w result a }
    ensures there { (cells : Store) → IsAnswerThere cells answer → IsCallEndThere cells result }
{
    match answer {
        Answer::Value(v) => CallEnd::Ended(Ending::Value(v)),
        Answer::Faulty(faults) => CallEnd::Faulty(faults),
        Answer::Stopped(stop) => CallEnd::Ended(Ending::Stopped(stop)),
    }
}

/// An object is loaded, by its name.
fn load<W: Truthful>(
    live: &mut Live,
    swap: &mut W,
    stack: &mut Vec<Value>,
    name: &Text,
    player: Option<ObjId>,
    interactive: Option<ObjId>,
) -> Result<CallEnd, VmFault>
    requires closed { IsClosed live.old }
    requires empty { stack.old.items ≡ [] }
    requires rests { RestsForOne (W.content swap.old) live.old }
    ensures carries { IfOk result (λ e. (xs : List V) → CarriesOut (course.Load name.now course.Wanted) player interactive xs (W.content swap.old) live.old (W.content swap.new) live.new e) }
    ensures there { IfOk result (λ e. IsCallEndThere live.new.cells e) }
    ensures closed { OnOk result (IsClosed live.new) }
    ensures empty { OnOk result (stack.new.items ≡ []) }
    ensures rests { OnOk result (RestsForOne (W.content swap.new) live.new) }
    ensures tells { Tells (W.content swap.new) (W.last swap.new) (W.read_faults swap.old) (W.read_faults swap.new) (W.write_faults swap.old) (W.write_faults swap.new)
        (W.is_truthful swap.old) (W.is_truthful swap.new) (W.is_honest swap.old) (W.is_honest swap.new) live.new (read_of result) }
{
    law_there_is_one();
    let alloc = live.alloc;
    let mut asker = asker_for(alloc, player, interactive);
    let mut budget = FULL_BUDGET;
    let answer = load_object(
        alloc,
        live,
        swap,
        stack,
        &mut asker,
        name.as_slice(),
        &mut budget,
    )?;
    Ok(end_of_load(answer))
}

/// A call of the driver is carried out.
///
/// # Errors
/// `NoMemory`, also where the swap file gave other bytes of the same digest; `Swap` where it failed or gave bytes of another
/// digest. Nothing is said of the state then.
pub(crate) fn carry<W: Truthful>(
    live: &mut Live,
    swap: &mut W,
    stack: &mut Vec<Value>,
    call: Call,
) -> Result<CallEnd, VmFault>
    requires closed { IsClosed live.old }
    requires empty { stack.old.items ≡ [] }
    requires rests { RestsForOne (W.content swap.old) live.old }
    requires object { IsAskedThere live.old.objects call.asked }
    requires values { All (IsThere live.old.cells) call.arguments.items }
    ensures carries { IfOk result (λ e. Carries call (W.content swap.old) live.old (W.content swap.new) live.new e) }
    ensures there { IfOk result (λ e. IsCallEndThere live.new.cells e) }
    ensures closed { OnOk result (IsClosed live.new) }
    ensures empty { OnOk result (stack.new.items ≡ []) }
    ensures rests { OnOk result (RestsForOne (W.content swap.new) live.new) }
    ensures tells { Tells (W.content swap.new) (W.last swap.new) (W.read_faults swap.old) (W.read_faults swap.new) (W.write_faults swap.old) (W.write_faults swap.new)
        (W.is_truthful swap.old) (W.is_truthful swap.new) (W.is_honest swap.old) (W.is_honest swap.new) live.new (read_of result) }
{
    let Call {
        asked,
        player,
        interactive,
        arguments,
    } = call;
    match asked {
        Asked::Apply(o, name) => apply(live, swap, stack, o, &name, player, interactive, arguments),
        Asked::Command(o, line) => carry_command(live, swap, stack, o, &line, player, interactive),
        Asked::Load(name) => load(live, swap, stack, &name, player, interactive),
    }
}
