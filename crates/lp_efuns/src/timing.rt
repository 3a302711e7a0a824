//! Efuns of time: heart beats and call-outs.
ghost use Rattle.std.specs.Prelude.{◌≡◌, Bool, IfOk, map, not, pos, if◌then◌else◌};
ghost use Rattle.std.specs.Option.{option_map};
ghost use Rattle.std.specs.Ordering.{int_eq};
ghost use Rattle.lp_values.specs.declared.id.ObjId.{ObjId};
ghost use Rattle.lp_values.specs.declared.value.Value.{Value as V};
ghost use Rattle.lp_cells.specs.Cells.{Store};
ghost use Rattle.lp_ops.specs.Effects.{IsEffectThere};
ghost use Rattle.lp_ops.specs.Operands.{operand};
ghost use Rattle.lp_meaning.specs.EfunArguments.{int_arg};
ghost use Rattle.lp_timers.specs.Waiting.{call_out_of};
ghost use Rattle.lp_world.specs.Closed.{IsClosed};
ghost use Rattle.lp_efuns.specs.Deeds.{Does, Looks};
ghost use Rattle.lp_efuns.specs.Plain.{IsDidThere};
ghost use Rattle.lp_efuns.specs.Subjects.{seconds_from};
ghost use Rattle.lp_efuns.specs.declared.answer.Did.{Did as D};
ghost use Rattle.lp_efuns.specs.declared.caller.Turn.{Turn as T};

use crate::answer::{Did, EfunFault};
use crate::arguments::{int_at, text_shared};
use crate::caller::Caller;
use lp_instr::efun::Efun;
use lp_ops::effect::Effect;
use lp_timers::call_out::CallOut;
use lp_values::value::{Living, Value};
use lp_world::live::Live;
use std::alloc::{AllocError, Global};

/// The seconds from a clock to a moment, or -1 where there is none. The answer is want of memory too where they do not
/// fit an integer: no call-out waits so long.
fn seconds_from(clock: u64, due: Option<u64>) -> Result<Value, AllocError>
    ensures { IfOk result (λ v. v ≡ seconds_from clock due) }
{
    match due {
        None => Ok(Value::Int(-1)),
        Some(due) => {
            let left = due.saturating_sub(clock);
            if left > 9223372036854775807 {
                return Err(AllocError);
            }
            Ok(Value::Int(left as i64))
        }
    }
}

/// `find_call_out`: the seconds until a call-out of a function of this object is due, or -1.
pub(crate) fn find_call_out(
    caller: &Caller<'_>,
    args: &[Value],
    live: &Live,
) -> Result<Effect, AllocError>
    ensures looks { IfOk result (λ e. (turn : T) → Looks Efun.FindCallOut caller.now args.now live.now turn e) }
    ensures there { IfOk result (λ e. (cells : Store) → IsEffectThere cells e) }
{
    let fun = text_shared(live.alloc, args, 0)?;
    let left = seconds_from(live.clock, live.timers.left(caller.this, &fun))?;
    Ok(Effect::Gives(left))
}

/// When a call-out is due.
fn due_of(call_out: Option<CallOut>) -> Option<u64>
    ensures { result ≡ option_map (λ c. c.due) (option_map call_out_of call_out) }
{
    match call_out {
        Some(c) => Some(c.due),
        None => None,
    }
}

/// `remove_call_out`: the same, and the call-out does not wait any more.
pub(crate) fn remove_call_out(
    live: &mut Live,
    caller: &Caller<'_>,
    args: &[Value],
) -> Result<Did, EfunFault>
    requires closed { IsClosed live.old }
    ensures does { IfOk result (λ d. (turn : T) → Does Efun.RemoveCallOut caller.now args.now live.old turn d live.new turn) }
    ensures closed { IsClosed live.new }
    ensures there { IfOk result (IsDidThere live.new.cells) }
    ensures cells { live.new.cells ≡ live.old.cells }
    ensures objects { live.new.objects ≡ live.old.objects }
    ensures names { live.new.names ≡ live.old.names }
{
    let fun = text_shared(live.alloc, args, 0)?;
    let due = due_of(live.timers.remove(caller.this, &fun));
    let left = seconds_from(live.clock, due)?;
    Ok(Did::Value(left))
}

/// 1 or 0, as what an efun comes to.
fn truth_did(b: bool) -> Did
    ensures value { result ≡ D.Value (V.Int (if b then pos 1 else pos 0)) }
    ensures there { (cells : Store) → IsDidThere cells result }
{
    Did::Value(Value::Int(if b { 1 } else { 0 }))
}

/// Whether an argument switches a heart on: every integer but 0 does.
fn switches_on(args: &[Value]) -> bool
    ensures { (live : ObjId → Bool) (cells : Store) → result ≡ not (int_eq (int_arg (map (operand live cells) args.now) 0) (pos 0)) }
{
    int_at(args, 0) != 0
}

/// `set_heart_beat`: the heart of this object is switched on or off; 1 where that changes anything.
pub(crate) fn set_heart_beat(
    live: &mut Live,
    caller: &Caller<'_>,
    args: &[Value],
) -> Result<Did, EfunFault>
    requires closed { IsClosed live.old }
    ensures does { IfOk result (λ d. (turn : T) → Does Efun.SetHeartBeat caller.now args.now live.old turn d live.new turn) }
    ensures closed { IsClosed live.new }
    ensures there { IfOk result (IsDidThere live.new.cells) }
    ensures cells { live.new.cells ≡ live.old.cells }
    ensures objects { live.new.objects ≡ live.old.objects }
    ensures names { live.new.names ≡ live.old.names }
{
    if !live.objects.is_live(caller.this) {
        return Ok(truth_did(false));
    }
    let on = switches_on(args);
    let changed = live.timers.beat(caller.this, on, live.clock)?;
    Ok(truth_did(changed))
}
