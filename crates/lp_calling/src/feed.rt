//! Jobs are told what was answered.
ghost use Rattle.std.specs.Prelude.{◌≡◌, ◌<◌, ◌≤◌, IfOk, List, OnOk, Option, length, ℕ};
ghost use Rattle.lp_values.specs.declared.value.Value.{Value as V};
ghost use Rattle.lp_cells.specs.Cells.{IsThere};
ghost use Rattle.lp_world.specs.Rows.{live_in};
ghost use Rattle.lp_world.specs.declared.objects.Object.{Object};
ghost use Rattle.lp_step.specs.Steps.{IsFit};
ghost use Rattle.lp_calling.specs.Going.{StageTakes, Takes};
ghost use Rattle.lp_calling.specs.Jobs.{IsAsking, IsJobOn, IsReady, IsStageAsking, IsStageOn, IsStageReady, player_back, questions_left, stage_left};

use crate::audience::take_told;
use crate::items::take_item;
use crate::job::{Job, Stage};
use crate::laying::put_at;
use crate::leave::{take_leave, take_master};
use crate::moving::{move_back, take_moving};
use crate::search::take_sought;
use lp_efuns::caller::Turn;
use lp_values::error::ErrorKind;
use lp_values::id::ObjId;
use lp_values::text::Text;
use lp_values::value::{Living, Value};
use lp_world::live::Live;
use lp_world::objects::ObjectTable;
use std::alloc::{AllocError, Global};
use std::mem;

/// A function is called in an object, which is no target where it does not live.
fn call_in(objects: &ObjectTable, o: ObjId, function: Text) -> Stage
    ensures takes { (name : List ℕ) (low : ℕ) (stack : List V) → StageTakes (Stage.Target name function) (V.Obj o) (live_in objects.now) low stack result stack }
    ensures on { (low n : ℕ) → low ≤ n → IsStageOn result low n }
    ensures less { stage_left result < 2 }
    ensures ready { IsStageReady objects.now result }
{
    if !objects.is_live(o) {
        return Stage::Error(ErrorKind::BadTarget);
    }
    Stage::Call(o, function)
}

/// A function is called in the object that a load gave; another value is no target.
fn take_target(objects: &ObjectTable, v: Value, function: Text) -> Stage
    ensures takes { (name : List ℕ) (low : ℕ) (stack : List V) → StageTakes (Stage.Target name function) v (live_in objects.now) low stack result stack }
    ensures on { (low n : ℕ) → low ≤ n → IsStageOn result low n }
    ensures less { stage_left result < 2 }
    ensures ready { IsStageReady objects.now result }
{
    match v {
        Value::Obj(o) => call_in(objects, o, function),
        _ => Stage::Error(ErrorKind::BadTarget),
    }
}

/// The answer of the one question of a job is its value.
fn take_value(stack: &mut Vec<Value>, low: usize, v: Value) -> Result<Stage, AllocError>
    requires { low ≤ length stack.old.items }
    ensures takes { IfOk result (λ t. (o : _) (name : _) (live : _) → StageTakes (Stage.Call o name) v live low stack.old.items t stack.new.items) }
    ensures loaded { IfOk result (λ t. (name : _) (live : _) → StageTakes (Stage.Load name) v live low stack.old.items t stack.new.items) }
    ensures on { IfOk result (λ t. IsStageOn t low (length stack.new.items)) }
    ensures less { IfOk result (λ t. stage_left t < 1) }
    ensures ready { IfOk result (λ t. (objects : List (Option Object)) → IsStageReady objects t) }
    ensures fit { OnOk result ((l : _) → IsThere l.cells v → IsFit l stack.old.items → IsFit l stack.new.items) }
{
    put_at(stack, low, v)?;
    Ok(Stage::Value)
}

/// The stage behind an answer.
fn taken(
    alloc: Global,
    stage: Stage,
    objects: &ObjectTable,
    stack: &mut Vec<Value>,
    low: usize,
    v: Value,
) -> Result<Stage, AllocError>
    requires on { IsStageOn stage low (length stack.old.items) }
    requires asking { IsStageAsking stage }
    ensures takes { IfOk result (λ t. StageTakes stage v (live_in objects.now) low stack.old.items t stack.new.items) }
    ensures on { IfOk result (λ t. IsStageOn t low (length stack.new.items)) }
    ensures less { IfOk result (λ t. stage_left t < stage_left stage) }
    ensures ready { IfOk result (IsStageReady objects.now) }
    ensures fit { OnOk result ((l : _) → IsThere l.cells v → IsFit l stack.old.items → IsFit l stack.new.items) }
{
    match stage {
        Stage::Call(_, _) => take_value(stack, low, v),
        Stage::Target(_, function) => Ok(take_target(objects, v, function)),
        Stage::Load(_) => take_value(stack, low, v),
        Stage::Move(moving) => Ok(take_moving(moving, objects, stack, low, &v)),
        Stage::Items(round) => take_item(round, objects, stack, low, v),
        Stage::Tell(_, _) => Ok(Stage::Zero),
        Stage::Write(_) => Ok(Stage::Zero),
        Stage::Say(_, _) => Ok(Stage::Zero),
        Stage::TellEach(audience) => Ok(take_told(audience)),
        Stage::Seek(search) => take_sought(search, objects, stack, low, v),
        Stage::MasterLoad(wish) => Ok(take_master(objects, &v, wish)),
        Stage::Master(_, wish) => take_leave(alloc, objects, &v, wish),
        Stage::File(_, _) => Ok(Stage::Zero),
        Stage::Shadow(_, _) => Ok(Stage::Zero),
        Stage::Value => Ok(Stage::Zero),
        Stage::Zero => Ok(Stage::Zero),
        Stage::Error(_) => Ok(Stage::Zero),
    }
}

/// `this_player()` once a question of a stage has ended.
pub(crate) fn player_back(stage: &Stage, player: Option<ObjId>) -> Option<ObjId>
    ensures { result ≡ player_back stage.now player }
{
    match stage {
        Stage::Call(_, _) | Stage::Target(_, _) | Stage::Load(_) | Stage::Items(_) => player,
        Stage::Move(moving) => move_back(moving, player),
        Stage::Tell(_, _) | Stage::Write(_) | Stage::Say(_, _) | Stage::TellEach(_) => player,
        Stage::MasterLoad(_) | Stage::Master(_, _) | Stage::File(_, _) | Stage::Shadow(_, _) =>
            player,
        Stage::Seek(_) | Stage::Value | Stage::Zero | Stage::Error(_) => player,
    }
}

/// A job is told the value that its question was answered with. The arguments of the question are gone from the stack, and the
/// job's own values lie there as they did below them. Where `this_player()` was another one for the question it is put back.
///
/// # Errors
/// Where memory runs out; the job is of no use then.
pub fn feed(
    job: &mut Job,
    live: &Live,
    turn: &mut Turn,
    stack: &mut Vec<Value>,
    v: Value,
) -> Result<(), AllocError>
    requires on { IsJobOn job.old stack.old.items }
    requires asking { IsAsking job.old }
    requires fit { IsFit live.now stack.old.items }
    requires there { IsThere live.now.cells v }
    ensures takes { OnOk result (Takes job.old v live.now stack.old.items job.new stack.new.items) }
    ensures back { turn.new ≡ record turn.old { player = player_back job.old.stage turn.old.player } }
    ensures on { OnOk result (IsJobOn job.new stack.new.items) }
    ensures less { OnOk result (questions_left job.new < questions_left job.old) }
    ensures ready { OnOk result (IsReady live.now.objects job.new) }
    ensures fit { OnOk result (IsFit live.now stack.new.items) }
{
    turn.player = player_back(&job.stage, turn.player);
    let stage = mem::replace(&mut job.stage, Stage::Zero);
    job.stage = taken(live.alloc, stage, &live.objects, stack, job.low, v)?;
    Ok(())
}
