//! What efuns do with a function of this object: before it is asked whether there is one of the name, and then.
ghost use Rattle.std.specs.Prelude.{◌≡◌, All, IfOk, OnErr, true};
ghost use Rattle.lp_cells.specs.Cells.{IsThere, Store};
ghost use Rattle.lp_world.specs.Closed.{IsClosed};
ghost use Rattle.lp_efuns.specs.Plain.{IsDidThere};
ghost use Rattle.lp_putting.specs.Plans.{AnswersPlan, CarriesPlan, IsFitPlan, IsFitPlanned, IsOnlyPut, IsPlanned, IsPlannedThere, StandsStill, is_own_function};

use crate::adding::{add_action, plan_action};
use crate::awaiting::{await_line, plan_line};
use crate::delaying::{call_out, plan_delay};
use crate::plans::{Plan, Planned};
use crate::refusing::refusal;
use lp_efuns::answer::Did;
use lp_efuns::caller::{Caller, Turn};
use lp_instr::efun::Efun;
use lp_values::error::ErrorKind;
use lp_values::id::ObjId;
use lp_values::value::Value;
use lp_world::live::Live;
use std::alloc::AllocError;

/// What an efun comes to before it is asked whether this object has the function.
pub fn planned(
    live: &Live,
    turn: &Turn,
    caller: &Caller<'_>,
    efun: Efun,
    args: &[Value],
) -> Result<Planned, AllocError>
    requires own { is_own_function efun ≡ true }
    ensures planned { IfOk result (λ p. IsPlanned efun caller.now args.now live.now turn.now p) }
    ensures fit { IfOk result IsFitPlanned }
    ensures there { IfOk result (λ p. (cells : Store) → IsPlannedThere cells p) }
{
    match efun {
        Efun::AddAction => Ok(plan_action(live, turn, caller)),
        Efun::InputTo => Ok(plan_line(live, turn, caller)),
        Efun::CallOut => plan_delay(live, caller, args),
        _ => unreachable!(),
    }
}

/// What is planned is carried out.
fn carry_out(live: &mut Live, plan: Plan, this: ObjId, args: &[Value]) -> Result<Did, AllocError>
    requires fit { IsFitPlan plan }
    requires closed { IsClosed live.old }
    requires there { All (IsThere live.old.cells) args.now }
    ensures does { IfOk result (λ d. CarriesPlan plan this args.now live.old d live.new) }
    ensures still { OnErr result ((told : _) → StandsStill told live.old live.new) }
    ensures put { IsOnlyPut live.old live.new }
    ensures closed { IsClosed live.new }
    ensures there { IfOk result (λ d. (cells : Store) → IsDidThere cells d) }
{
    match plan {
        Plan::Action(holder) => add_action(live, holder, this, args),
        Plan::Line(number) => await_line(live, number, this, args),
        Plan::Delay(seconds) => call_out(live, seconds, this, args),
    }
}

/// The same where this object has the function, and else an error.
pub fn answer(
    live: &mut Live,
    plan: Plan,
    this: ObjId,
    args: &[Value],
    has: bool,
) -> Result<Did, AllocError>
    requires fit { IsFitPlan plan }
    requires closed { IsClosed live.old }
    requires there { All (IsThere live.old.cells) args.now }
    ensures does { IfOk result (λ d. AnswersPlan plan this args.now has live.old d live.new) }
    ensures still { OnErr result ((told : _) → StandsStill told live.old live.new) }
    ensures put { IsOnlyPut live.old live.new }
    ensures closed { IsClosed live.new }
    ensures there { IfOk result (λ d. (cells : Store) → IsDidThere cells d) }
{
    if !has {
        return refusal(live.alloc, ErrorKind::NoFunction);
    }
    carry_out(live, plan, this, args)
}
