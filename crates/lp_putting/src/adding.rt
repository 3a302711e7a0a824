//! `add_action`.
ghost use Rattle.std.specs.Prelude.{◌≡◌, ◌&&◌, Bool, IfOk, List, OnErr, ℕ, map};
ghost use Rattle.lp_cells.specs.Cells.{Store};
ghost use Rattle.lp_language.specs.Course.{State};
ghost use Rattle.lp_language.specs.World.{is_live, object_at};
ghost use Rattle.lp_meaning.specs.EfunArguments.{int_arg};
ghost use Rattle.lp_meaning.specs.WorldEfuns.{holder_for, is_flag};
ghost use Rattle.lp_ops.specs.Operands.{operand};
ghost use Rattle.lp_places.specs.Places.{in_reach};
ghost use Rattle.lp_values.specs.declared.id.ObjId.{ObjId as O};
ghost use Rattle.lp_values.specs.declared.value.Value.{Value as V};
ghost use Rattle.lp_world.specs.Closed.{IsClosed};
ghost use Rattle.lp_efuns.specs.Plain.{IsDidThere};
ghost use Rattle.lp_efuns.specs.Turns.{At, Setting};
ghost use Rattle.lp_efuns.specs.declared.caller.Turn.{Turn as T};
ghost use Rattle.lp_putting.specs.Plans.{CarriesPlan, IsFitPlanned, IsOnlyPut, IsPlanned, IsPlannedThere, StandsStill};
ghost use Rattle.lp_putting.specs.declared.plans.Plan.TheVariants as plans;

use crate::plans::{Plan, Planned};
use crate::reach::is_in_reach;
use lp_efuns::answer::Did;
use lp_efuns::arguments::{int_at, text_shared};
use lp_efuns::caller::{Caller, Turn};
use lp_efuns::objects::is_living;
use lp_instr::efun::Efun;
use lp_values::id::ObjId;
use lp_values::value::{Living, Value};
use lp_world::live::Live;
use std::alloc::AllocError;

/// Whether an object is live and living, and this object in its reach.
fn may_hold(live: &Live, p: ObjId, this: ObjId) -> bool
    ensures { (g : Setting) (turn : T) (budget : ℕ) (s : State) → At g live.now turn budget s → result ≡ (is_live s.world p && (object_at s.world p).is_living && in_reach s.world.places p this) }
{
    if !live.objects.is_live(p) {
        return false;
    }
    if !is_living(&live.objects, p) {
        return false;
    }
    is_in_reach(&live.places, p, this)
}

/// The player, where it is so.
fn holder(live: &Live, player: Option<ObjId>, this: ObjId) -> Option<ObjId>
    ensures { (g : Setting) (turn : T) (budget : ℕ) (s : State) → At g live.now turn budget s → result ≡ holder_for s.world this player }
{
    match player {
        Some(p) => if may_hold(live, p, this) {
            Some(p)
        } else {
            None
        },
        None => None,
    }
}

/// What `add_action` comes to before it is asked whether this object has the function: 0 where this object is destructed, or where
/// `this_player()` is not living or this object not in its reach.
pub(crate) fn plan_action(live: &Live, turn: &Turn, caller: &Caller<'_>) -> Planned
    ensures planned { (vs : List V) → IsPlanned Efun.AddAction caller.now vs live.now turn.now result }
    ensures fit { IsFitPlanned result }
    ensures there { (cells : Store) → IsPlannedThere cells result }
{
    if !live.objects.is_live(caller.this) {
        return Planned::Ends(Did::Value(Value::Int(0)));
    }
    match holder(live, turn.player, caller.this) {
        Some(p) => Planned::Asks(Plan::Action(p)),
        None => Planned::Ends(Did::Value(Value::Int(0))),
    }
}

/// Whether an argument is the integer 1. Arguments count from 0.
pub(crate) fn flag_at(args: &[Value], i: usize) -> bool
    ensures { (live : O → Bool) (cells : Store) → result ≡ is_flag (int_arg (map (operand live cells) args.now) i) }
{
    int_at(args, i) == 1
}

/// `add_action` of a function that this object has: the holder may do it from then on, by the verb.
pub(crate) fn add_action(
    live: &mut Live,
    holder: ObjId,
    this: ObjId,
    args: &[Value],
) -> Result<Did, AllocError>
    requires closed { IsClosed live.old }
    ensures does { IfOk result (λ d. CarriesPlan (plans.Action holder) this args.now live.old d live.new) }
    ensures still { OnErr result ((told : _) → StandsStill told live.old live.new) }
    ensures put { IsOnlyPut live.old live.new }
    ensures closed { IsClosed live.new }
    ensures there { IfOk result (λ d. (cells : Store) → IsDidThere cells d) }
{
    let function = text_shared(live.alloc, args, 0)?;
    let verb = text_shared(live.alloc, args, 1)?;
    let is_front = flag_at(args, 2);
    live.actions.add(holder, this, &function, &verb, is_front)?;
    Ok(Did::Value(Value::Int(1)))
}
