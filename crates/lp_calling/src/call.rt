//! `call_other`.
ghost use Rattle.std.specs.Prelude.{◌≡◌, ◌≤◌, IfOk, IsSome, OnOk, drop, false, length, map, true};
ghost use Rattle.std.specs.Str.{chars};
ghost use Rattle.lp_cells.specs.Cells.{Store};
ghost use Rattle.lp_ops.specs.Operands.{operand};
ghost use Rattle.lp_meaning.specs.EfunArguments.{arg};
ghost use Rattle.lp_meaning.specs.WorldSteps.{is_clone_name};
ghost use Rattle.lp_world.specs.Rows.{live_in, row_at};
ghost use Rattle.lp_efuns.specs.declared.caller.Turn.{Turn};
ghost use Rattle.lp_step.specs.Steps.{IsFit};
ghost use Rattle.lp_calling.specs.Beginning.{IsBegunReady, IsBegunThere, Starts};
ghost use Rattle.lp_calling.specs.Going.{IsAskedThere, IsStepThere, StageGoes};
ghost use Rattle.lp_calling.specs.Targets.{IsNamed, IsTarget, IsUnnamedTarget, target_of};
ghost use Rattle.lp_calling.specs.declared.target.CallTarget.TheVariants as targets;

use crate::ends::begin_error;
use crate::job::{Begun, CallingFault, Job, Question, Stage, Step};
use crate::laying::above;
use crate::target::{CallTarget, is_clone_name, target};
use lp_efuns::arguments::{text_at, text_shared};
use lp_efuns::names::as_name;
use lp_instr::efun::Efun;
use lp_values::error::ErrorKind;
use lp_values::id::ObjId;
use lp_values::text::Text;
use lp_values::value::{Living, Value};
use lp_world::live::Live;
use std::alloc::AllocError;

/// `call_other` of a live object goes on as a job. Its values are its arguments, where they lie.
fn begin_live(live: &Live, stack: &Vec<Value>, low: usize, o: ObjId) -> Result<Begun, CallingFault>
    requires low { low ≤ length stack.now.items }
    requires live { live_in live.now.objects o ≡ true }
    requires target { IsTarget live.now (drop low stack.now.items) o }
    ensures starts { IfOk result (λ r. (caller : _) → Starts r Efun.CallOther caller live.now low stack.now.items stack.now.items) }
    ensures there { IfOk result (λ r. (cells : Store) → IsBegunThere cells r) }
    ensures ready { IfOk result (IsBegunReady live.now.objects) }
{
    let name = text_shared(live.alloc, above(stack, low), 1)?;
    Ok(Begun::Runs(Job {
        efun: Efun::CallOther,
        low,
        stage: Stage::Call(o, name),
    }))
}

/// `call_other` begins whose target names an object. One that is not live is an error.
fn begin_found(
    live: &Live,
    stack: &mut Vec<Value>,
    low: usize,
    o: ObjId,
) -> Result<Begun, CallingFault>
    requires low { low ≤ length stack.old.items }
    requires named { IsNamed live.now (drop low stack.old.items) o }
    ensures starts { IfOk result (λ r. (caller : _) → Starts r Efun.CallOther caller live.now low stack.old.items stack.new.items) }
    ensures fit { OnOk result (IsFit live.now stack.old.items → IsFit live.now stack.new.items) }
    ensures there { IfOk result (λ r. (cells : Store) → IsBegunThere cells r) }
    ensures ready { IfOk result (IsBegunReady live.now.objects) }
{
    if live.objects.is_live(o) {
        return begin_live(live, stack, low, o);
    }
    begin_error(live.alloc, stack, low, ErrorKind::BadTarget)
}

/// `call_other` of an object that is to be loaded goes on as a job. Its values are its arguments, where they lie.
fn begin_target(
    live: &Live,
    stack: &Vec<Value>,
    low: usize,
    name: &str,
) -> Result<Begun, CallingFault>
    requires low { low ≤ length stack.now.items }
    requires unnamed { IsUnnamedTarget live.now (drop low stack.now.items) (chars name.now) }
    requires other { is_clone_name (chars name.now) ≡ false }
    ensures starts { IfOk result (λ r. (caller : _) → Starts r Efun.CallOther caller live.now low stack.now.items stack.now.items) }
    ensures there { IfOk result (λ r. (cells : Store) → IsBegunThere cells r) }
    ensures ready { IfOk result (λ r. (objects : _) → IsBegunReady objects r) }
{
    let name = Text::from_str(live.alloc, name)?;
    let function = text_shared(live.alloc, above(stack, low), 1)?;
    Ok(Begun::Runs(Job {
        efun: Efun::CallOther,
        low,
        stage: Stage::Target(name, function),
    }))
}

/// `call_other` begins whose target is a text that means a name which no live object has. A clone's name is an error; an object
/// of another name is loaded.
fn begin_unnamed(
    live: &Live,
    stack: &mut Vec<Value>,
    low: usize,
    name: &str,
) -> Result<Begun, CallingFault>
    requires low { low ≤ length stack.old.items }
    requires unnamed { IsUnnamedTarget live.now (drop low stack.old.items) (chars name.now) }
    ensures starts { IfOk result (λ r. (caller : _) → Starts r Efun.CallOther caller live.now low stack.old.items stack.new.items) }
    ensures fit { OnOk result (IsFit live.now stack.old.items → IsFit live.now stack.new.items) }
    ensures there { IfOk result (λ r. (cells : Store) → IsBegunThere cells r) }
    ensures ready { IfOk result (IsBegunReady live.now.objects) }
{
    if is_clone_name(name) {
        return begin_error(live.alloc, stack, low, ErrorKind::BadTarget);
    }
    begin_target(live, stack, low, name)
}

/// `call_other` begins whose target is a text: the live object with the name that it means.
fn begin_named(live: &Live, stack: &mut Vec<Value>, low: usize) -> Result<Begun, CallingFault>
    requires low { low ≤ length stack.old.items }
    requires target { (cells : Store) → targets.Named ≡ target_of (arg (map (operand (live_in live.now.objects) cells) (drop low stack.old.items)) 0) }
    ensures starts { IfOk result (λ r. (caller : _) → Starts r Efun.CallOther caller live.now low stack.old.items stack.new.items) }
    ensures fit { OnOk result (IsFit live.now stack.old.items → IsFit live.now stack.new.items) }
    ensures there { IfOk result (λ r. (cells : Store) → IsBegunThere cells r) }
    ensures ready { IfOk result (IsBegunReady live.now.objects) }
{
    let name = as_name(live.alloc, text_at(above(stack, low), 0))?;
    match live.names.find(name.as_str()) {
        Some(o) => begin_found(live, stack, low, o),
        None => begin_unnamed(live, stack, low, name.as_str()),
    }
}

/// `call_other` begins. Another target than a live object or a text is an error.
pub(crate) fn begin_call(
    live: &Live,
    stack: &mut Vec<Value>,
    low: usize,
) -> Result<Begun, CallingFault>
    requires low { low ≤ length stack.old.items }
    ensures starts { IfOk result (λ r. (caller : _) → Starts r Efun.CallOther caller live.now low stack.old.items stack.new.items) }
    ensures fit { OnOk result (IsFit live.now stack.old.items → IsFit live.now stack.new.items) }
    ensures there { IfOk result (λ r. (cells : Store) → IsBegunThere cells r) }
    ensures ready { IfOk result (IsBegunReady live.now.objects) }
{
    match target(above(stack, low), &live.objects) {
        CallTarget::Live(o) => begin_live(live, stack, low, o),
        CallTarget::Named => begin_named(live, stack, low),
        CallTarget::Nothing => begin_error(live.alloc, stack, low, ErrorKind::BadTarget),
    }
}

/// How many values lie above the first two above a place.
fn count_behind(stack: &Vec<Value>, low: usize) -> usize
    requires { low ≤ length stack.now.items }
    ensures { result ≡ length (drop 2 (drop low stack.now.items)) }
{
    (stack.len() - low).saturating_sub(2)
}

/// `call_other` asks for its function, with the arguments behind the first two, which lie on top. Takes no memory beyond what
/// keeps the name.
pub(crate) fn ask_call(
    efun: Efun,
    o: ObjId,
    name: &Text,
    stack: &Vec<Value>,
    low: usize,
) -> Result<Step, AllocError>
    requires low { low ≤ length stack.now.items }
    ensures goes { IfOk result (λ r. (live : _) (turn : Turn) (budget : _) → StageGoes r efun (Stage.Call o name.now) low live turn stack.now.items budget live turn stack.now.items budget) }
    ensures there { IfOk result (λ r. (cells : Store) → IsStepThere cells r) }
    ensures asked { IfOk result (λ r. (objects : _) → IsSome (row_at objects o.0) → IsAskedThere objects r) }
{
    let n = count_behind(stack, low);
    Ok(Step::Asks(Question::Other(o, name.copy()?), n))
}
