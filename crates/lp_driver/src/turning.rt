//! Turns go on to their ends.
ghost use Rattle.std.specs.Prelude.{◌≡◌, ◌≤◌, [], All, IfOk, OnOk};
ghost use Rattle.lp_cells.specs.Cells.{IsThere};
ghost use Rattle.lp_world.specs.Closed.{IsClosed};
ghost use Rattle.lp_turn.specs.Calls.{IsAskedThere};
ghost use Rattle.lp_turn.specs.Going.{AreStepValuesThere, Takes};
ghost use Rattle.lp_turn.specs.Left.{AsksFewer, calls_behind, calls_left};
ghost use Rattle.lp_turn.specs.Turns.{going_course};
ghost use Rattle.lp_vm.specs.Causes.{Tells, read_of};
ghost use Rattle.lp_driver.specs.Carrying.{RestsForOne};
ghost use Rattle.lp_driver.specs.Turning.{IsStepAskedThere, TurnContinues, TurnEnds, TurnGoes, TurnSteps, asking_course};

use crate::carrying::carry;
use lp_asking::truth::Truthful;
use lp_front_end::law_there_is_one;
use lp_meaning::outcomes_can_be;
use lp_turn::feed::feed;
use lp_turn::job::{Call, CallEnd, Going, Step, Waiting};
use lp_turn::next::next;
use lp_values::value::Value;
use lp_vm::fault::VmFault;
use lp_world::live::Live;

/// A turn is told how its call ended.
///
/// # Errors
/// `NoMemory`, also where the swap file gave other bytes of the same digest; `Swap` where it failed or gave bytes of another
/// digest.
fn tell_end<W: Truthful>(
    live: &mut Live,
    swap: &mut W,
    waiting: Waiting,
    end: CallEnd,
) -> Result<Going, VmFault>
    requires closed { IsClosed live.old }
    requires rests { RestsForOne (W.content swap.old) live.old }
    ensures takes { IfOk result (λ g. Takes waiting end (W.content swap.old) live.old (W.content swap.new) live.new g) }
    ensures fewer { IfOk result (λ g. calls_left g ≤ calls_behind waiting) }
    ensures closed { OnOk result (IsClosed live.new) }
    ensures tells { Tells (W.content swap.new) (W.last swap.new) (W.read_faults swap.old) (W.read_faults swap.new) (W.write_faults swap.old) (W.write_faults swap.new)
        (W.is_truthful swap.old) (W.is_truthful swap.new) (W.is_honest swap.old) (W.is_honest swap.new) live.new (read_of result) }
{
    let going = feed(waiting, end, live, swap)?;
    if !swap.tells_truth() {
        return Err(VmFault::NoMemory);
    }
    Ok(going)
}

/// A call that a turn asks for is carried out, and the turn is told how it ended.
///
/// # Errors
/// As where a call is carried out.
fn ask<W: Truthful>(
    live: &mut Live,
    swap: &mut W,
    stack: &mut Vec<Value>,
    call: Call,
    waiting: Waiting,
) -> Result<Going, VmFault>
    requires closed { IsClosed live.old }
    requires empty { stack.old.items ≡ [] }
    requires rests { RestsForOne (W.content swap.old) live.old }
    requires object { IsAskedThere live.old.objects call.asked }
    requires values { All (IsThere live.old.cells) call.arguments.items }
    ensures goes { IfOk result (λ g. TurnGoes (asking_course call waiting) (W.content swap.old) live.old (W.content swap.new) live.new g) }
    ensures fewer { IfOk result (λ g. calls_left g ≤ calls_behind waiting) }
    ensures closed { OnOk result (IsClosed live.new) }
    ensures empty { OnOk result (stack.new.items ≡ []) }
    ensures rests { OnOk result (RestsForOne (W.content swap.new) live.new) }
    ensures tells { Tells (W.content swap.new) (W.last swap.new) (W.read_faults swap.old) (W.read_faults swap.new) (W.write_faults swap.old) (W.write_faults swap.new)
        (W.is_truthful swap.old) (W.is_truthful swap.new) (W.is_honest swap.old) (W.is_honest swap.new) live.new (read_of result) }
{
    law_there_is_one();
    outcomes_can_be();
    let end = carry(live, swap, stack, call)?;
    tell_end(live, swap, waiting, end)
}

/// A call is carried out, and the turn goes on to its next step.
///
/// # Errors
/// As where a call is carried out.
fn ask_on<W: Truthful>(
    live: &mut Live,
    swap: &mut W,
    stack: &mut Vec<Value>,
    call: Call,
    waiting: Waiting,
) -> Result<Step, VmFault>
    requires closed { IsClosed live.old }
    requires empty { stack.old.items ≡ [] }
    requires rests { RestsForOne (W.content swap.old) live.old }
    requires object { IsAskedThere live.old.objects call.asked }
    requires values { All (IsThere live.old.cells) call.arguments.items }
    ensures steps { IfOk result (λ r. TurnSteps (asking_course call waiting) (W.content swap.old) live.old (W.content swap.new) live.new r) }
    ensures fewer { IfOk result (λ r. AsksFewer r (calls_behind waiting)) }
    ensures object { IfOk result (λ r. IsStepAskedThere live.new.objects r) }
    ensures values { IfOk result (λ r. AreStepValuesThere live.new.cells r) }
    ensures closed { OnOk result (IsClosed live.new) }
    ensures empty { OnOk result (stack.new.items ≡ []) }
    ensures rests { OnOk result (RestsForOne (W.content swap.new) live.new) }
    ensures tells { Tells (W.content swap.new) (W.last swap.new) (W.read_faults swap.old) (W.read_faults swap.new) (W.write_faults swap.old) (W.write_faults swap.new)
        (W.is_truthful swap.old) (W.is_truthful swap.new) (W.is_honest swap.old) (W.is_honest swap.new) live.new (read_of result) }
{
    let going = ask(live, swap, stack, call, waiting)?;
    Ok(next(going, live)?)
}

/// A turn that has begun goes on to its end, call by call.
///
/// # Errors
/// As where a call is carried out.
pub(crate) fn run_step<W: Truthful>(
    live: &mut Live,
    swap: &mut W,
    stack: &mut Vec<Value>,
    mut step: Step,
) -> Result<(), VmFault>
    requires closed { IsClosed live.old }
    requires empty { stack.old.items ≡ [] }
    requires rests { RestsForOne (W.content swap.old) live.old }
    requires object { IsStepAskedThere live.old.objects step }
    requires values { AreStepValuesThere live.old.cells step }
    ensures ends { OnOk result (TurnContinues step (W.content swap.old) live.old (W.content swap.new) live.new Step.Ends) }
    ensures closed { OnOk result (IsClosed live.new) }
    ensures empty { OnOk result (stack.new.items ≡ []) }
    ensures rests { OnOk result (RestsForOne (W.content swap.new) live.new) }
    ensures tells { Tells (W.content swap.new) (W.last swap.new) (W.read_faults swap.old) (W.read_faults swap.new) (W.write_faults swap.old) (W.write_faults swap.new)
        (W.is_truthful swap.old) (W.is_truthful swap.new) (W.is_honest swap.old) (W.is_honest swap.new) live.new (read_of result) }
{
    'calls: loop {
        match step {
            Step::Asks(call, waiting) => {
                let more = ask_on(live, swap, stack, call, waiting)?;
                step = more;
            }
            Step::Ends => return Ok(()),
        }
    }
}

/// A turn goes on to its end.
///
/// # Errors
/// As where a call is carried out.
pub(crate) fn run_turn<W: Truthful>(
    live: &mut Live,
    swap: &mut W,
    stack: &mut Vec<Value>,
    going: Going,
) -> Result<(), VmFault>
    requires closed { IsClosed live.old }
    requires empty { stack.old.items ≡ [] }
    requires rests { RestsForOne (W.content swap.old) live.old }
    ensures ends { OnOk result (TurnEnds (going_course going) (W.content swap.old) live.old (W.content swap.new) live.new) }
    ensures closed { OnOk result (IsClosed live.new) }
    ensures empty { OnOk result (stack.new.items ≡ []) }
    ensures rests { OnOk result (RestsForOne (W.content swap.new) live.new) }
    ensures tells { Tells (W.content swap.new) (W.last swap.new) (W.read_faults swap.old) (W.read_faults swap.new) (W.write_faults swap.old) (W.write_faults swap.new)
        (W.is_truthful swap.old) (W.is_truthful swap.new) (W.is_honest swap.old) (W.is_honest swap.new) live.new (read_of result) }
{
    let step = next(going, live)?;
    run_step(live, swap, stack, step)
}
