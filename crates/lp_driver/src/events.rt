//! A turn for each event.
ghost use Rattle.std.specs.Prelude.{◌≡◌, [], IsOk, OnOk};
ghost use Rattle.lp_meaning.specs.EventTurns.{connect_turn, gone_turn, line_turn, reload_turn};
ghost use Rattle.lp_meaning.specs.Ticks.{turn};
ghost use Rattle.lp_world.specs.Closed.{IsClosed};
ghost use Rattle.lp_vm.specs.Causes.{Tells, read_of};
ghost use Rattle.lp_driver.specs.Carrying.{RestsForOne};
ghost use Rattle.lp_driver.specs.Turning.{IsSwap, MayCome, TurnEnds};

use crate::ticking::tick;
use crate::turning::{run_step, run_turn};
use lp_asking::truth::Truthful;
use lp_events::event::Event;
use lp_turn::{begin, reloads};
use lp_values::value::Value;
use lp_vm::fault::VmFault;
use lp_world::live::Live;

/// A number is connected.
fn connect<W: Truthful>(
    live: &mut Live,
    swap: &mut W,
    stack: &mut Vec<Value>,
    number: u32,
) -> Result<(), VmFault>
    requires closed { IsClosed live.old }
    requires empty { stack.old.items ≡ [] }
    requires rests { RestsForOne (W.content swap.old) live.old }
    ensures ends { OnOk result (TurnEnds (connect_turn number) (W.content swap.old) live.old (W.content swap.new) live.new) }
    ensures closed { OnOk result (IsClosed live.new) }
    ensures empty { OnOk result (stack.new.items ≡ []) }
    ensures tells { Tells (W.content swap.new) (W.last swap.new) (W.read_faults swap.old) (W.read_faults swap.new) (W.write_faults swap.old) (W.write_faults swap.new)
        (W.is_truthful swap.old) (W.is_truthful swap.new) (W.is_honest swap.old) (W.is_honest swap.new) live.new (read_of result) }
{
    let going = begin::connect(live, number)?;
    run_turn(live, swap, stack, going)
}

/// A number is gone.
fn gone<W: Truthful>(
    live: &mut Live,
    swap: &mut W,
    stack: &mut Vec<Value>,
    number: u32,
) -> Result<(), VmFault>
    requires closed { IsClosed live.old }
    requires empty { stack.old.items ≡ [] }
    requires rests { RestsForOne (W.content swap.old) live.old }
    ensures ends { OnOk result (TurnEnds (gone_turn number) (W.content swap.old) live.old (W.content swap.new) live.new) }
    ensures closed { OnOk result (IsClosed live.new) }
    ensures empty { OnOk result (stack.new.items ≡ []) }
    ensures tells { Tells (W.content swap.new) (W.last swap.new) (W.read_faults swap.old) (W.read_faults swap.new) (W.write_faults swap.old) (W.write_faults swap.new)
        (W.is_truthful swap.old) (W.is_truthful swap.new) (W.is_honest swap.old) (W.is_honest swap.new) live.new (read_of result) }
{
    let going = begin::gone(live, number);
    run_turn(live, swap, stack, going)
}

/// A line came from a connection.
fn line<W: Truthful>(
    live: &mut Live,
    swap: &mut W,
    stack: &mut Vec<Value>,
    number: u32,
    bytes: &[u8],
) -> Result<(), VmFault>
    requires closed { IsClosed live.old }
    requires empty { stack.old.items ≡ [] }
    requires rests { RestsForOne (W.content swap.old) live.old }
    ensures ends { OnOk result (TurnEnds (line_turn number bytes.now) (W.content swap.old) live.old (W.content swap.new) live.new) }
    ensures closed { OnOk result (IsClosed live.new) }
    ensures empty { OnOk result (stack.new.items ≡ []) }
    ensures tells { Tells (W.content swap.new) (W.last swap.new) (W.read_faults swap.old) (W.read_faults swap.new) (W.write_faults swap.old) (W.write_faults swap.new)
        (W.is_truthful swap.old) (W.is_truthful swap.new) (W.is_honest swap.old) (W.is_honest swap.new) live.new (read_of result) }
{
    let step = begin::line(live, number, bytes)?;
    run_step(live, swap, stack, step)
}

/// A file has a new text.
///
/// # Errors
/// `NoMemory`, also where the path has letters beyond ASCII, which no event of a script and no order of an operator names.
fn reload<W: Truthful>(
    live: &mut Live,
    swap: &mut W,
    path: &str,
    bytes: &[u8],
) -> Result<(), VmFault>
    requires closed { IsClosed live.old }
    requires rests { RestsForOne (W.content swap.old) live.old }
    ensures ends { OnOk result (TurnEnds (reload_turn path.now bytes.now) (W.content swap.old) live.old (W.content swap.new) live.new) }
    ensures closed { OnOk result (IsClosed live.new) }
    ensures tells { Tells (W.content swap.new) (W.last swap.new) (W.read_faults swap.old) (W.read_faults swap.new) (W.write_faults swap.old) (W.write_faults swap.new)
        (W.is_truthful swap.old) (W.is_truthful swap.new) (W.is_honest swap.old) (W.is_honest swap.new) live.new (read_of result) }
{
    if !path.is_ascii() {
        return Err(VmFault::NoMemory);
    }
    reloads::reload(live, path, bytes)?;
    Ok(())
}

/// One turn carries out one event. A swap changes nothing.
///
/// # Errors
/// `NoMemory`, also where the swap file gave other bytes of the same digest; `Swap` where it failed or gave bytes of another
/// digest. Nothing is said of the state then.
pub(crate) fn carry_out<W: Truthful>(
    live: &mut Live,
    swap: &mut W,
    stack: &mut Vec<Value>,
    event: &Event,
) -> Result<(), VmFault>
    requires may { MayCome event.now }
    requires closed { IsClosed live.old }
    requires empty { stack.old.items ≡ [] }
    requires rests { RestsForOne (W.content swap.old) live.old }
    ensures ends { OnOk result (TurnEnds (turn event.now) (W.content swap.old) live.old (W.content swap.new) live.new) }
    ensures swaps { IsSwap event.now → IsOk result × (live.new ≡ live.old) }
    ensures closed { OnOk result (IsClosed live.new) }
    ensures empty { OnOk result (stack.new.items ≡ []) }
    ensures tells { Tells (W.content swap.new) (W.last swap.new) (W.read_faults swap.old) (W.read_faults swap.new) (W.write_faults swap.old) (W.write_faults swap.new)
        (W.is_truthful swap.old) (W.is_truthful swap.new) (W.is_honest swap.old) (W.is_honest swap.new) live.new (read_of result) }
{
    match event {
        Event::Connect(number) => connect(live, swap, stack, *number),
        Event::Line(number, bytes) => line(live, swap, stack, *number, bytes.as_slice()),
        Event::Gone(number) => gone(live, swap, stack, *number),
        Event::Tick(moment) => tick(live, swap, stack, *moment),
        Event::Reload(path, bytes) => reload(live, swap, path.as_str(), bytes.as_slice()),
        Event::Swap(_) => Ok(()),
    }
}
