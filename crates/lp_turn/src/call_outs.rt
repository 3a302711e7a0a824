//! The call-outs of a tick, one after another.
ghost use Rattle.std.specs.Prelude.{◌≡◌, ◌+◌, ◌<◌, All, IfOk, IfSome, IsSome, MatchOption, length};
ghost use Rattle.std.specs.Bool.{OnTrue};
ghost use Rattle.lp_cells.specs.Cells.{IsThere};
ghost use Rattle.lp_timers.specs.Waiting.{call_out_of};
ghost use Rattle.lp_turn.specs.Going.{AreStepValuesThere, BeginsWith, Goes};
ghost use Rattle.lp_turn.specs.Left.{AsksFewer};
ghost use Rattle.lp_turn.specs.TickSteps.{calling_out, first_waiting, with_left, without_number};
ghost use Rattle.lp_world.specs.Closed.{IsClosed};
ghost use Rattle.lp_world.specs.Rows.{row_at};

use crate::job::{Asked, Call, Going, Step, Waiting};
use crate::tick_job::{Numbers, TickGoing, TickWaiting};
use lp_timers::call_out::CallOut;
use lp_timers::timers::Timers;
use lp_values::id::ObjId;
use lp_world::live::Live;
use std::alloc::AllocError;

/// The first of some numbers with which a call-out waits still: it is taken out, and the numbers behind it are left.
fn take_next(timers: &mut Timers, numbers: &mut Numbers) -> Option<CallOut>
    ensures first { with_left result numbers.new ≡ first_waiting timers.old.call_outs numbers.old }
    ensures left { MatchOption result (timers.new ≡ timers.old) (λ c. timers.new ≡ without_number timers.old c.number) }
    ensures fewer { IfSome result (λ c. length numbers.new < length numbers.old) }
{
    while let Some(number) = numbers.next() {
        if let Some(call_out) = timers.take(number) {
            return Some(call_out);
        }
    }
    None
}

/// Whether the state has an object.
fn is_there(live: &Live, o: ObjId) -> bool
    ensures { OnTrue result (IsSome (row_at live.now.objects o.0)) }
{
    live.objects.get(o).is_some()
}

/// A call-out that was taken out is called, for nobody. The answer is want of memory too where the state does not have its object:
/// the call-outs of an object end with it.
fn call(live: &Live, call_out: CallOut, rest: Numbers) -> Result<Step, AllocError>
    requires there { All (IsThere live.now.cells) call_out.args.items }
    ensures begins { IfOk result (λ r. BeginsWith (calling_out (call_out_of call_out) rest) live.now live.now r) }
    ensures fewer { IfOk result (λ r. AsksFewer r (1 + length rest)) }
    ensures there { IfOk result (λ r. AreStepValuesThere live.now.cells r) }
{
    if !is_there(live, call_out.ob) {
        return Err(AllocError);
    }
    Ok(Step::Asks(
        Call {
            asked: Asked::Apply(call_out.ob, call_out.fun),
            player: None,
            interactive: None,
            arguments: call_out.args,
        },
        Waiting::Tick(TickWaiting::CallOut(rest)),
    ))
}

/// The call-outs of a tick go on: the next one that waits still is taken out and called.
pub(crate) fn call_next(live: &mut Live, mut numbers: Numbers) -> Result<Step, AllocError>
    requires closed { IsClosed live.old }
    ensures goes { IfOk result (λ r. Goes r (Going.Tick (TickGoing.CallOuts numbers)) live.old live.new) }
    ensures fewer { IfOk result (λ r. AsksFewer r (length numbers)) }
    ensures there { IfOk result (λ r. AreStepValuesThere live.new.cells r) }
    ensures closed { IsClosed live.new }
{
    match take_next(&mut live.timers, &mut numbers) {
        Some(call_out) => call(live, call_out, numbers),
        None => Ok(Step::Ends),
    }
}
