//! `load_object`, and objects that are loaded to be called.
ghost use Rattle.std.specs.Prelude.{◌≡◌, ◌≤◌, IfOk, List, OnOk, Option, drop, false, length, ℕ};
ghost use Rattle.std.specs.Str.{chars};
ghost use Rattle.lp_values.specs.declared.value.Value.{Value as V};
ghost use Rattle.lp_cells.specs.Cells.{Store};
ghost use Rattle.lp_meaning.specs.WorldSteps.{is_clone_name};
ghost use Rattle.lp_world.specs.declared.objects.Object.{Object};
ghost use Rattle.lp_world.specs.declared.live.Live.{Live as L};
ghost use Rattle.lp_efuns.specs.declared.caller.Turn.{Turn};
ghost use Rattle.lp_step.specs.Steps.{IsFit};
ghost use Rattle.lp_calling.specs.Beginning.{IsBegunReady, IsBegunThere, Starts};
ghost use Rattle.lp_calling.specs.Going.{IsAskedThere, IsStepThere, StageGoes};
ghost use Rattle.lp_calling.specs.Targets.{IsLoadable, IsUnnamed, MeansName};

use crate::ends::begin_error;
use crate::job::{Begun, CallingFault, Job, Question, Stage, Step};
use crate::laying::{above, put_at};
use crate::target::is_clone_name;
use lp_efuns::arguments::text_at;
use lp_efuns::names::as_name;
use lp_instr::efun::Efun;
use lp_values::error::ErrorKind;
use lp_values::id::ObjId;
use lp_values::text::Text;
use lp_values::value::Value;
use lp_world::live::Live;
use std::alloc::AllocError;

/// `load_object` has come to a live object, which takes the place of its arguments.
fn load_found(
    live: &Live,
    stack: &mut Vec<Value>,
    low: usize,
    o: ObjId,
) -> Result<Begun, CallingFault>
    requires low { low ≤ length stack.old.items }
    requires loadable { IsLoadable live.now (drop low stack.old.items) o }
    ensures starts { IfOk result (λ r. (caller : _) → Starts r Efun.LoadObject caller live.now low stack.old.items stack.new.items) }
    ensures fit { OnOk result (IsFit live.now stack.old.items → IsFit live.now stack.new.items) }
    ensures there { IfOk result (λ r. (cells : Store) → IsBegunThere cells r) }
    ensures ready { IfOk result (λ r. (objects : List (Option Object)) → IsBegunReady objects r) }
{
    put_at(stack, low, Value::Obj(o))?;
    Ok(Begun::Runs(Job {
        efun: Efun::LoadObject,
        low,
        stage: Stage::Value,
    }))
}

/// `load_object` of an object that is to be loaded goes on as a job.
fn load_named(
    live: &Live,
    stack: &Vec<Value>,
    low: usize,
    name: &str,
) -> Result<Begun, CallingFault>
    requires low { low ≤ length stack.now.items }
    requires means { MeansName (drop low stack.now.items) (chars name.now) }
    requires unnamed { IsUnnamed live.now (chars name.now) }
    requires other { is_clone_name (chars name.now) ≡ false }
    ensures starts { IfOk result (λ r. (caller : _) → Starts r Efun.LoadObject caller live.now low stack.now.items stack.now.items) }
    ensures there { IfOk result (λ r. (cells : Store) → IsBegunThere cells r) }
    ensures ready { IfOk result (λ r. (objects : List (Option Object)) → IsBegunReady objects r) }
{
    let name = Text::from_str(live.alloc, name)?;
    Ok(Begun::Runs(Job {
        efun: Efun::LoadObject,
        low,
        stage: Stage::Load(name),
    }))
}

/// `load_object` begins whose argument means a name that no live object has. A clone's name is an error.
fn load_unnamed(
    live: &Live,
    stack: &mut Vec<Value>,
    low: usize,
    name: &str,
) -> Result<Begun, CallingFault>
    requires low { low ≤ length stack.old.items }
    requires means { MeansName (drop low stack.old.items) (chars name.now) }
    requires unnamed { IsUnnamed live.now (chars name.now) }
    ensures starts { IfOk result (λ r. (caller : _) → Starts r Efun.LoadObject caller live.now low stack.old.items stack.new.items) }
    ensures fit { OnOk result (IsFit live.now stack.old.items → IsFit live.now stack.new.items) }
    ensures there { IfOk result (λ r. (cells : Store) → IsBegunThere cells r) }
    ensures ready { IfOk result (λ r. (objects : List (Option Object)) → IsBegunReady objects r) }
{
    if is_clone_name(name) {
        return begin_error(live.alloc, stack, low, ErrorKind::BadTarget);
    }
    load_named(live, stack, low, name)
}

/// `load_object` begins: a live object with the name that its argument means is its value.
pub(crate) fn begin_load(
    live: &Live,
    stack: &mut Vec<Value>,
    low: usize,
) -> Result<Begun, CallingFault>
    requires low { low ≤ length stack.old.items }
    ensures starts { IfOk result (λ r. (caller : _) → Starts r Efun.LoadObject caller live.now low stack.old.items stack.new.items) }
    ensures fit { OnOk result (IsFit live.now stack.old.items → IsFit live.now stack.new.items) }
    ensures there { IfOk result (λ r. (cells : Store) → IsBegunThere cells r) }
    ensures ready { IfOk result (λ r. (objects : List (Option Object)) → IsBegunReady objects r) }
{
    let name = as_name(live.alloc, text_at(above(stack, low), 0))?;
    match live.names.find(name.as_str()) {
        Some(o) => load_found(live, stack, low, o),
        None => load_unnamed(live, stack, low, name.as_str()),
    }
}

/// The object of a name is to be loaded, without arguments.
pub(crate) fn ask_load(name: &Text) -> Result<Step, AllocError>
    ensures target { IfOk result (λ r. (e : _) (fun : List ℕ) (low : ℕ) (live : L) (turn : Turn) (stack : List V) (budget : ℕ) → low ≤ length stack → StageGoes r e (Stage.Target name.now fun) low live turn stack budget live turn stack budget) }
    ensures load { IfOk result (λ r. (e : _) (low : ℕ) (live : L) (turn : Turn) (stack : List V) (budget : ℕ) → low ≤ length stack → StageGoes r e (Stage.Load name.now) low live turn stack budget live turn stack budget) }
    ensures there { IfOk result (λ r. (cells : Store) → IsStepThere cells r) }
    ensures asked { IfOk result (λ r. (objects : List (Option Object)) → IsAskedThere objects r) }
{
    Ok(Step::Asks(Question::Load(name.copy()?), 0))
}
