//! Turns are told how their calls ended.
ghost use Rattle.std.specs.Prelude.{◌≡◌, ◌≤◌, IfOk};
ghost use Rattle.lp_language.specs.Course.{State};
ghost use Rattle.lp_meaning.specs.EventTurns.{Done};
ghost use Rattle.lp_targets.specs.Brought.{Brings};
ghost use Rattle.lp_turn.specs.Going.{Takes};
ghost use Rattle.lp_turn.specs.Left.{calls_after, calls_behind, calls_left};
ghost use Rattle.lp_turn.specs.Turns.{behind, going_course};
ghost use Rattle.lp_world.specs.Closed.{IsClosed};

use crate::ends::{loaded, value_of};
use crate::job::{CallEnd, Going, MasterFunction, Waiting};
use crate::tick_feed::take_tick;
use lp_residence::answers::EnterFault;
use lp_swapfile::SwapFile;
use lp_values::id::ObjId;
use lp_values::value::Value;
use lp_world::live::Live;

/// Where a turn goes on behind the value of a function of the master.
fn behind(f: MasterFunction, v: Value) -> Going
    ensures course { (d : Done) (s : State) → d.value ≡ v → behind f d s ≡ going_course result s }
    ensures fewer { calls_left result ≤ calls_after f }
{
    match f {
        MasterFunction::Connect(number) => Going::Admit(number, v),
        MasterFunction::Disconnect(_) => Going::Done,
    }
}

/// The master was loaded, or not, for a function of it.
fn take_load<W: SwapFile>(
    live: &mut Live,
    swap: &mut W,
    f: MasterFunction,
    end: CallEnd,
) -> Result<Going, EnterFault>
    requires closed { IsClosed live.old }
    ensures takes { W.is_truthful swap.new → IfOk result (λ g. Takes (Waiting.Load f) end (W.content swap.old) live.old (W.content swap.new) live.new g) }
    ensures fewer { IfOk result (λ g. calls_left g ≤ calls_behind (Waiting.Load f)) }
    ensures brings { Brings (W.content swap.old) (W.content swap.new) (W.last swap.new) (W.read_faults swap.old) (W.read_faults swap.new) (W.write_faults swap.old) (W.write_faults swap.new)
        (W.is_truthful swap.old) (W.is_truthful swap.new) (W.is_honest swap.old) (W.is_honest swap.new) live.old (record live.new { outputs = live.old.outputs }) result }
    ensures closed { IsClosed live.new }
{
    match loaded(live, swap, "/secure/master", end) {
        Ok(()) => Ok(Going::Loaded(f)),
        Err(e) => Err(e),
    }
}

/// A function of the master ended.
fn take_master<W: SwapFile>(
    live: &mut Live,
    swap: &mut W,
    f: MasterFunction,
    end: CallEnd,
) -> Result<Going, EnterFault>
    requires closed { IsClosed live.old }
    ensures takes { W.is_truthful swap.new → IfOk result (λ g. Takes (Waiting.Master f) end (W.content swap.old) live.old (W.content swap.new) live.new g) }
    ensures fewer { IfOk result (λ g. calls_left g ≤ calls_behind (Waiting.Master f)) }
    ensures brings { Brings (W.content swap.old) (W.content swap.new) (W.last swap.new) (W.read_faults swap.old) (W.read_faults swap.new) (W.write_faults swap.old) (W.write_faults swap.new)
        (W.is_truthful swap.old) (W.is_truthful swap.new) (W.is_honest swap.old) (W.is_honest swap.new) live.old (record live.new { outputs = live.old.outputs }) result }
    ensures closed { IsClosed live.new }
{
    match value_of(live, swap, None, end) {
        Ok(v) => Ok(behind(f, v)),
        Err(e) => Err(e),
    }
}

/// `logon` ended.
fn take_logon<W: SwapFile>(
    live: &mut Live,
    swap: &mut W,
    number: u32,
    o: ObjId,
    end: CallEnd,
) -> Result<Going, EnterFault>
    requires closed { IsClosed live.old }
    ensures takes { W.is_truthful swap.new → IfOk result (λ g. Takes (Waiting.Logon number o) end (W.content swap.old) live.old (W.content swap.new) live.new g) }
    ensures fewer { IfOk result (λ g. calls_left g ≤ calls_behind (Waiting.Logon number o)) }
    ensures brings { Brings (W.content swap.old) (W.content swap.new) (W.last swap.new) (W.read_faults swap.old) (W.read_faults swap.new) (W.write_faults swap.old) (W.write_faults swap.new)
        (W.is_truthful swap.old) (W.is_truthful swap.new) (W.is_honest swap.old) (W.is_honest swap.new) live.old (record live.new { outputs = live.old.outputs }) result }
    ensures closed { IsClosed live.new }
{
    match value_of(live, swap, Some(o), end) {
        Ok(v) => Ok(Going::Logged(number, v)),
        Err(e) => Err(e),
    }
}

/// What an object did with a line ended.
fn take_line<W: SwapFile>(
    live: &mut Live,
    swap: &mut W,
    o: ObjId,
    end: CallEnd,
) -> Result<Going, EnterFault>
    requires closed { IsClosed live.old }
    ensures takes { W.is_truthful swap.new → IfOk result (λ g. Takes (Waiting.Line o) end (W.content swap.old) live.old (W.content swap.new) live.new g) }
    ensures fewer { IfOk result (λ g. calls_left g ≤ calls_behind (Waiting.Line o)) }
    ensures brings { Brings (W.content swap.old) (W.content swap.new) (W.last swap.new) (W.read_faults swap.old) (W.read_faults swap.new) (W.write_faults swap.old) (W.write_faults swap.new)
        (W.is_truthful swap.old) (W.is_truthful swap.new) (W.is_honest swap.old) (W.is_honest swap.new) live.old (record live.new { outputs = live.old.outputs }) result }
    ensures closed { IsClosed live.new }
{
    match value_of(live, swap, Some(o), end) {
        Ok(_) => Ok(Going::Done),
        Err(e) => Err(e),
    }
}

/// A turn is told how its call ended. A stop is told to the log, and to the player whose call it was; then the turn goes on as with 0.
/// The program in which it stopped is brought into memory.
///
/// # Errors
/// `Swap` where the read of that program failed, or gave other bytes than were written. `NoMemory` where memory ran out, and where
/// the state has not what the place of the stop names. The turn is of no use then.
pub fn feed<W: SwapFile>(
    waiting: Waiting,
    end: CallEnd,
    live: &mut Live,
    swap: &mut W,
) -> Result<Going, EnterFault>
    requires closed { IsClosed live.old }
    ensures takes { W.is_truthful swap.new → IfOk result (λ g. Takes waiting end (W.content swap.old) live.old (W.content swap.new) live.new g) }
    ensures fewer { IfOk result (λ g. calls_left g ≤ calls_behind waiting) }
    ensures brings { Brings (W.content swap.old) (W.content swap.new) (W.last swap.new) (W.read_faults swap.old) (W.read_faults swap.new) (W.write_faults swap.old) (W.write_faults swap.new)
        (W.is_truthful swap.old) (W.is_truthful swap.new) (W.is_honest swap.old) (W.is_honest swap.new) live.old (record live.new { outputs = live.old.outputs }) result }
    ensures closed { IsClosed live.new }
{
    match waiting {
        Waiting::Load(f) => take_load(live, swap, f, end),
        Waiting::Master(f) => take_master(live, swap, f, end),
        Waiting::Logon(number, o) => take_logon(live, swap, number, o, end),
        Waiting::Line(o) => take_line(live, swap, o, end),
        Waiting::Tick(waiting) => take_tick(live, swap, waiting, end),
    }
}
