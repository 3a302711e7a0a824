//! The steps of a tick are told how their calls ended.
ghost use Rattle.std.specs.Prelude.{◌≡◌, ◌≤◌, IfOk};
ghost use Rattle.lp_targets.specs.Brought.{Brings};
ghost use Rattle.lp_turn.specs.Ends.{is_uncaught};
ghost use Rattle.lp_turn.specs.Going.{Takes};
ghost use Rattle.lp_turn.specs.Left.{calls_behind, calls_left};
ghost use Rattle.lp_world.specs.Closed.{IsClosed};

use crate::ends::value_of;
use crate::job::{CallEnd, Going, Waiting};
use crate::tick_job::{DueObjects, Numbers, TickGoing, TickWaiting};
use lp_asking::ending::Ending;
use lp_residence::answers::EnterFault;
use lp_swapfile::SwapFile;
use lp_values::id::ObjId;
use lp_world::live::Live;

/// Whether an end of a call was uncaught.
fn is_uncaught(end: &CallEnd) -> bool
    ensures { result ≡ is_uncaught end.now }
{
    match end {
        CallEnd::Ended(Ending::Stopped(_)) => true,
        CallEnd::Ended(Ending::Value(_)) => false,
        CallEnd::Faulty(_) => false,
    }
}

/// A call-out ended.
fn take_call_out<W: SwapFile>(
    live: &mut Live,
    swap: &mut W,
    rest: Numbers,
    end: CallEnd,
) -> Result<Going, EnterFault>
    requires closed { IsClosed live.old }
    ensures takes { W.is_truthful swap.new → IfOk result (λ g. Takes (Waiting.Tick (TickWaiting.CallOut rest)) end (W.content swap.old) live.old (W.content swap.new) live.new g) }
    ensures fewer { IfOk result (λ g. calls_left g ≤ calls_behind (Waiting.Tick (TickWaiting.CallOut rest))) }
    ensures brings { Brings (W.content swap.old) (W.content swap.new) (W.last swap.new) (W.read_faults swap.old) (W.read_faults swap.new) (W.write_faults swap.old) (W.write_faults swap.new)
        (W.is_truthful swap.old) (W.is_truthful swap.new) (W.is_honest swap.old) (W.is_honest swap.new) live.old (record live.new { outputs = live.old.outputs }) result }
    ensures closed { IsClosed live.new }
{
    match value_of(live, swap, None, end) {
        Ok(_) => Ok(Going::Tick(TickGoing::CallOuts(rest))),
        Err(e) => Err(e),
    }
}

/// A heart beat ended.
fn take_beat<W: SwapFile>(
    live: &mut Live,
    swap: &mut W,
    o: ObjId,
    player: Option<ObjId>,
    due: DueObjects,
    end: CallEnd,
) -> Result<Going, EnterFault>
    requires closed { IsClosed live.old }
    ensures takes { W.is_truthful swap.new → IfOk result (λ g. Takes (Waiting.Tick (TickWaiting.Beat o player due)) end (W.content swap.old) live.old (W.content swap.new) live.new g) }
    ensures fewer { IfOk result (λ g. calls_left g ≤ calls_behind (Waiting.Tick (TickWaiting.Beat o player due))) }
    ensures brings { Brings (W.content swap.old) (W.content swap.new) (W.last swap.new) (W.read_faults swap.old) (W.read_faults swap.new) (W.write_faults swap.old) (W.write_faults swap.new)
        (W.is_truthful swap.old) (W.is_truthful swap.new) (W.is_honest swap.old) (W.is_honest swap.new) live.old (record live.new { outputs = live.old.outputs }) result }
    ensures closed { IsClosed live.new }
{
    let is_uncaught = is_uncaught(&end);
    match value_of(live, swap, player, end) {
        Ok(_) => Ok(Going::Tick(TickGoing::Beaten(o, is_uncaught, due))),
        Err(e) => Err(e),
    }
}

/// A reset ended.
fn take_reset<W: SwapFile>(
    live: &mut Live,
    swap: &mut W,
    due: DueObjects,
    end: CallEnd,
) -> Result<Going, EnterFault>
    requires closed { IsClosed live.old }
    ensures takes { W.is_truthful swap.new → IfOk result (λ g. Takes (Waiting.Tick (TickWaiting.Reset due)) end (W.content swap.old) live.old (W.content swap.new) live.new g) }
    ensures fewer { IfOk result (λ g. calls_left g ≤ calls_behind (Waiting.Tick (TickWaiting.Reset due))) }
    ensures brings { Brings (W.content swap.old) (W.content swap.new) (W.last swap.new) (W.read_faults swap.old) (W.read_faults swap.new) (W.write_faults swap.old) (W.write_faults swap.new)
        (W.is_truthful swap.old) (W.is_truthful swap.new) (W.is_honest swap.old) (W.is_honest swap.new) live.old (record live.new { outputs = live.old.outputs }) result }
    ensures closed { IsClosed live.new }
{
    match value_of(live, swap, None, end) {
        Ok(_) => Ok(Going::Tick(TickGoing::Resets(due))),
        Err(e) => Err(e),
    }
}

/// An object has answered whether it cleans up.
fn take_clean_up<W: SwapFile>(
    live: &mut Live,
    swap: &mut W,
    o: ObjId,
    due: DueObjects,
    end: CallEnd,
) -> Result<Going, EnterFault>
    requires closed { IsClosed live.old }
    ensures takes { W.is_truthful swap.new → IfOk result (λ g. Takes (Waiting.Tick (TickWaiting.CleanUp o due)) end (W.content swap.old) live.old (W.content swap.new) live.new g) }
    ensures fewer { IfOk result (λ g. calls_left g ≤ calls_behind (Waiting.Tick (TickWaiting.CleanUp o due))) }
    ensures brings { Brings (W.content swap.old) (W.content swap.new) (W.last swap.new) (W.read_faults swap.old) (W.read_faults swap.new) (W.write_faults swap.old) (W.write_faults swap.new)
        (W.is_truthful swap.old) (W.is_truthful swap.new) (W.is_honest swap.old) (W.is_honest swap.new) live.old (record live.new { outputs = live.old.outputs }) result }
    ensures closed { IsClosed live.new }
{
    match value_of(live, swap, None, end) {
        Ok(v) => Ok(Going::Tick(TickGoing::CleanedUp(o, v, due))),
        Err(e) => Err(e),
    }
}

/// A step of a tick is told how its call ended.
pub(crate) fn take_tick<W: SwapFile>(
    live: &mut Live,
    swap: &mut W,
    waiting: TickWaiting,
    end: CallEnd,
) -> Result<Going, EnterFault>
    requires closed { IsClosed live.old }
    ensures takes { W.is_truthful swap.new → IfOk result (λ g. Takes (Waiting.Tick waiting) end (W.content swap.old) live.old (W.content swap.new) live.new g) }
    ensures fewer { IfOk result (λ g. calls_left g ≤ calls_behind (Waiting.Tick waiting)) }
    ensures brings { Brings (W.content swap.old) (W.content swap.new) (W.last swap.new) (W.read_faults swap.old) (W.read_faults swap.new) (W.write_faults swap.old) (W.write_faults swap.new)
        (W.is_truthful swap.old) (W.is_truthful swap.new) (W.is_honest swap.old) (W.is_honest swap.new) live.old (record live.new { outputs = live.old.outputs }) result }
    ensures closed { IsClosed live.new }
{
    match waiting {
        TickWaiting::CallOut(rest) => take_call_out(live, swap, rest, end),
        TickWaiting::Beat(o, player, due) => take_beat(live, swap, o, player, due, end),
        TickWaiting::Reset(due) => take_reset(live, swap, due, end),
        TickWaiting::CleanUp(o, due) => take_clean_up(live, swap, o, due, end),
    }
}
