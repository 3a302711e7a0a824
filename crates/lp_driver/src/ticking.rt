//! The clock reaches a moment: call-outs, heart beats, resets and clean-ups, one step after another.
ghost use Rattle.std.specs.Prelude.{◌≡◌, ◌≤◌, ◌^◌, [], OnOk};
ghost use Rattle.lp_meaning.specs.Ticks.{tick_turn};
ghost use Rattle.lp_turn.specs.Ticks.{beats_due, clean_ups_due, resets_due};
ghost use Rattle.lp_world.specs.Closed.{IsClosed};
ghost use Rattle.lp_vm.specs.Causes.{Tells, read_of};
ghost use Rattle.lp_driver.specs.Carrying.{RestsForOne};
ghost use Rattle.lp_driver.specs.Turning.{TurnEnds, call_outs_due};

use crate::turning::run_turn;
use lp_asking::truth::Truthful;
use lp_lasting_laws::law_numbers_are_enough;
use lp_turn::ticks;
use lp_values::value::Value;
use lp_vm::fault::VmFault;
use lp_world::live::Live;

/// The clock is set, and the call-outs that are due are called.
fn call_outs<W: Truthful>(
    live: &mut Live,
    swap: &mut W,
    stack: &mut Vec<Value>,
    moment: u64,
) -> Result<(), VmFault>
    requires moment { moment ≤ 10 ^ 12 }
    requires closed { IsClosed live.old }
    requires empty { stack.old.items ≡ [] }
    requires rests { RestsForOne (W.content swap.old) live.old }
    ensures ends { OnOk result (TurnEnds (call_outs_due moment) (W.content swap.old) live.old (W.content swap.new) live.new) }
    ensures closed { OnOk result (IsClosed live.new) }
    ensures empty { OnOk result (stack.new.items ≡ []) }
    ensures rests { OnOk result (RestsForOne (W.content swap.new) live.new) }
    ensures tells { Tells (W.content swap.new) (W.last swap.new) (W.read_faults swap.old) (W.read_faults swap.new) (W.write_faults swap.old) (W.write_faults swap.new)
        (W.is_truthful swap.old) (W.is_truthful swap.new) (W.is_honest swap.old) (W.is_honest swap.new) live.new (read_of result) }
{
    law_numbers_are_enough();
    let going = ticks::tick(live, moment)?;
    run_turn(live, swap, stack, going)
}

/// The hearts that are due beat.
fn heart_beats<W: Truthful>(
    live: &mut Live,
    swap: &mut W,
    stack: &mut Vec<Value>,
    moment: u64,
) -> Result<(), VmFault>
    requires moment { moment ≤ 10 ^ 12 }
    requires closed { IsClosed live.old }
    requires empty { stack.old.items ≡ [] }
    requires rests { RestsForOne (W.content swap.old) live.old }
    ensures ends { OnOk result (TurnEnds (beats_due moment) (W.content swap.old) live.old (W.content swap.new) live.new) }
    ensures closed { OnOk result (IsClosed live.new) }
    ensures empty { OnOk result (stack.new.items ≡ []) }
    ensures rests { OnOk result (RestsForOne (W.content swap.new) live.new) }
    ensures tells { Tells (W.content swap.new) (W.last swap.new) (W.read_faults swap.old) (W.read_faults swap.new) (W.write_faults swap.old) (W.write_faults swap.new)
        (W.is_truthful swap.old) (W.is_truthful swap.new) (W.is_honest swap.old) (W.is_honest swap.new) live.new (read_of result) }
{
    let going = ticks::beats(live, moment)?;
    run_turn(live, swap, stack, going)
}

/// The objects are reset whose moment has come.
fn resets<W: Truthful>(
    live: &mut Live,
    swap: &mut W,
    stack: &mut Vec<Value>,
    moment: u64,
) -> Result<(), VmFault>
    requires moment { moment ≤ 10 ^ 12 }
    requires closed { IsClosed live.old }
    requires empty { stack.old.items ≡ [] }
    requires rests { RestsForOne (W.content swap.old) live.old }
    ensures ends { OnOk result (TurnEnds (resets_due moment) (W.content swap.old) live.old (W.content swap.new) live.new) }
    ensures closed { OnOk result (IsClosed live.new) }
    ensures empty { OnOk result (stack.new.items ≡ []) }
    ensures rests { OnOk result (RestsForOne (W.content swap.new) live.new) }
    ensures tells { Tells (W.content swap.new) (W.last swap.new) (W.read_faults swap.old) (W.read_faults swap.new) (W.write_faults swap.old) (W.write_faults swap.new)
        (W.is_truthful swap.old) (W.is_truthful swap.new) (W.is_honest swap.old) (W.is_honest swap.new) live.new (read_of result) }
{
    let going = ticks::resets(live, moment)?;
    run_turn(live, swap, stack, going)
}

/// The objects are asked whether they clean up whose moment has come.
fn clean_ups<W: Truthful>(
    live: &mut Live,
    swap: &mut W,
    stack: &mut Vec<Value>,
    moment: u64,
) -> Result<(), VmFault>
    requires moment { moment ≤ 10 ^ 12 }
    requires closed { IsClosed live.old }
    requires empty { stack.old.items ≡ [] }
    requires rests { RestsForOne (W.content swap.old) live.old }
    ensures ends { OnOk result (TurnEnds (clean_ups_due moment) (W.content swap.old) live.old (W.content swap.new) live.new) }
    ensures closed { OnOk result (IsClosed live.new) }
    ensures empty { OnOk result (stack.new.items ≡ []) }
    ensures tells { Tells (W.content swap.new) (W.last swap.new) (W.read_faults swap.old) (W.read_faults swap.new) (W.write_faults swap.old) (W.write_faults swap.new)
        (W.is_truthful swap.old) (W.is_truthful swap.new) (W.is_honest swap.old) (W.is_honest swap.new) live.new (read_of result) }
{
    let going = ticks::clean_ups(live, moment)?;
    run_turn(live, swap, stack, going)
}

/// The clock reaches a moment, in seconds: the steps of a tick follow one another, each by what is due when it begins.
///
/// # Errors
/// As where a call is carried out.
pub(crate) fn tick<W: Truthful>(
    live: &mut Live,
    swap: &mut W,
    stack: &mut Vec<Value>,
    moment: u64,
) -> Result<(), VmFault>
    requires moment { moment ≤ 10 ^ 12 }
    requires closed { IsClosed live.old }
    requires empty { stack.old.items ≡ [] }
    requires rests { RestsForOne (W.content swap.old) live.old }
    ensures ends { OnOk result (TurnEnds (tick_turn moment) (W.content swap.old) live.old (W.content swap.new) live.new) }
    ensures closed { OnOk result (IsClosed live.new) }
    ensures empty { OnOk result (stack.new.items ≡ []) }
    ensures tells { Tells (W.content swap.new) (W.last swap.new) (W.read_faults swap.old) (W.read_faults swap.new) (W.write_faults swap.old) (W.write_faults swap.new)
        (W.is_truthful swap.old) (W.is_truthful swap.new) (W.is_honest swap.old) (W.is_honest swap.new) live.new (read_of result) }
{
    call_outs(live, swap, stack, moment)?;
    heart_beats(live, swap, stack, moment)?;
    resets(live, swap, stack, moment)?;
    clean_ups(live, swap, stack, moment)
}
