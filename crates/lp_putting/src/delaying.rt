//! `call_out`.
ghost use Rattle.std.specs.Prelude.{◌≡◌, ◌<◌, ◌^◌, All, Bool, IfOk, IfSome, OnErr, map};
ghost use Rattle.lp_cells.specs.Cells.{IsThere, Store};
ghost use Rattle.lp_meaning.specs.EfunArguments.{int_arg};
ghost use Rattle.lp_ops.specs.Operands.{operand};
ghost use Rattle.lp_values.specs.declared.id.ObjId.{ObjId as O};
ghost use Rattle.lp_world.specs.Closed.{IsClosed};
ghost use Rattle.lp_efuns.specs.Plain.{IsDidThere};
ghost use Rattle.lp_efuns.specs.declared.answer.Did.{Did as D};
ghost use Rattle.lp_efuns.specs.declared.caller.Turn.{Turn as T};
ghost use Rattle.lp_values.specs.Errors.{plain};
ghost use Rattle.lp_putting.specs.Plans.{CarriesPlan, IsFitPlanned, IsOnlyPut, IsPlanned, IsPlannedThere, StandsStill, seconds_in};
ghost use Rattle.lp_putting.specs.declared.plans.Plan.TheVariants as plans;

use crate::awaiting::kept_behind;
use crate::plans::{Plan, Planned};
use crate::refusing::{bad_second, refusal};
use lp_efuns::answer::Did;
use lp_efuns::arguments::{int_at, text_shared};
use lp_efuns::caller::Caller;
use lp_instr::efun::Efun;
use lp_timers::fault::TimerFault;
use lp_values::error::ErrorKind;
use lp_values::id::ObjId;
use lp_values::value::{Living, Value};
use lp_world::live::Live;
use std::alloc::{AllocError, Global};

/// The seconds that the second argument means, unless it is negative.
fn seconds_at(args: &[Value]) -> Option<u64>
    ensures value { (live : O → Bool) (cells : Store) → result ≡ seconds_in (int_arg (map (operand live cells) args.now) 1) }
    ensures small { IfSome result (λ n. n < 2 ^ 63) }
{
    let n = int_at(args, 1);
    if n < 0 {
        return None;
    }
    Some(n as u64)
}

/// What `call_out` comes to before it is asked whether this object has the function: 0 where this object is destructed, and an error
/// where the delay is negative.
pub(crate) fn plan_delay(
    live: &Live,
    caller: &Caller<'_>,
    args: &[Value],
) -> Result<Planned, AllocError>
    ensures planned { IfOk result (λ p. (turn : T) → IsPlanned Efun.CallOut caller.now args.now live.now turn p) }
    ensures fit { IfOk result IsFitPlanned }
    ensures there { IfOk result (λ p. (cells : Store) → IsPlannedThere cells p) }
{
    if !live.objects.is_live(caller.this) {
        return Ok(Planned::Ends(Did::Value(Value::Int(0))));
    }
    match seconds_at(args) {
        Some(n) => Ok(Planned::Asks(Plan::Delay(n))),
        None => Ok(Planned::Ends(bad_second(live.alloc, Efun::CallOut)?)),
    }
}

/// The error where as many call-outs wait as may wait.
fn too_many(alloc: Global, e: TimerFault) -> Result<Did, AllocError>
    ensures { IfOk result (λ d. (d ≡ D.Error (plain ErrorKind.TooMany)) × (e ≡ TimerFault.TooMany)) }
{
    match e {
        TimerFault::TooMany => refusal(alloc, ErrorKind::TooMany),
        TimerFault::NoMemory => Err(AllocError),
    }
}

/// `call_out` of a function that this object has: it is due after so many seconds, and is called with the arguments behind the second
/// one. Where 100000 wait it is an error. Costs a logarithm of how many wait.
pub(crate) fn call_out(
    live: &mut Live,
    seconds: u64,
    this: ObjId,
    args: &[Value],
) -> Result<Did, AllocError>
    requires small { seconds < 2 ^ 63 }
    requires closed { IsClosed live.old }
    requires there { All (IsThere live.old.cells) args.now }
    ensures does { IfOk result (λ d. CarriesPlan (plans.Delay seconds) this args.now live.old d live.new) }
    ensures still { OnErr result ((told : _) → StandsStill told live.old live.new) }
    ensures put { IsOnlyPut live.old live.new }
    ensures closed { IsClosed live.new }
    ensures there { IfOk result (λ d. (cells : Store) → IsDidThere cells d) }
{
    let function = text_shared(live.alloc, args, 0)?;
    let kept = kept_behind(live.alloc, args)?;
    match live
        .timers
        .call_out(this, &function, live.clock + seconds, kept)
    {
        Ok(_) => Ok(Did::Value(Value::Int(0))),
        Err(e) => too_many(live.alloc, e),
    }
}
