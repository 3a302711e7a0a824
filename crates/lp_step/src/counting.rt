//! One more, and one less.
ghost use Rattle.std.specs.Prelude.{◌+◌, ◌<◌, ◌≤◌, ◌^◌, All, Bool, IfOk, length};
ghost use Rattle.lp_cells.specs.Cells.{IsThere, Store};
ghost use Rattle.lp_language.specs.Operations.{step_effect};
ghost use Rattle.lp_ops.specs.Effects.{Answers};
ghost use Rattle.lp_ops.specs.Operands.{opened, operand};
ghost use Rattle.lp_step.specs.Steps.{Keeps, Performs};
ghost use Rattle.lp_step.specs.Works.{IsWorkedThere, SteppedOn, Works};
ghost use Rattle.lp_values.specs.declared.id.ObjId.{ObjId};

use crate::fault::StepFault;
use crate::integers::count_in_place;
use crate::next::Next;
use crate::stack::{pay, pop, push};
use crate::worked::Worked;
use lp_cells::cells::Cells;
use lp_instr::instr::Instr;
use lp_ops::effect::fault;
use lp_ops::fault::OpFault;
use lp_tree::operator::Step;
use lp_values::error::ErrorKind;
use lp_values::value::{Living, Value};
use lp_world::frame::Frame;
use lp_world::live::Live;
use lp_world::objects::ObjectTable;
use std::alloc::Global;

/// `++`, of a value that was read.
fn raised(alloc: Global, x: &Value) -> Result<Value, OpFault>
    ensures { (live : ObjId → Bool) (cells : Store) → Answers (step_effect Step.Up (opened live cells x.now)) result }
{
    match x {
        Value::Int(n) => match n.checked_add(1) {
            Some(m) => Ok(Value::Int(m)),
            None => Err(fault(alloc, ErrorKind::Overflow)),
        },
        _ => Err(fault(alloc, ErrorKind::BadOperands)),
    }
}

/// `--`, of a value that was read.
fn lowered(alloc: Global, x: &Value) -> Result<Value, OpFault>
    ensures { (live : ObjId → Bool) (cells : Store) → Answers (step_effect Step.Down (opened live cells x.now)) result }
{
    match x {
        Value::Int(n) => match n.checked_sub(1) {
            Some(m) => Ok(Value::Int(m)),
            None => Err(fault(alloc, ErrorKind::Overflow)),
        },
        _ => Err(fault(alloc, ErrorKind::BadOperands)),
    }
}

/// One more or one less.
fn stepped<L: Living>(
    alloc: Global,
    step: Step,
    x: &Value,
    cells: &Cells,
    live: &L,
) -> Result<Value, OpFault>
    ensures { Answers (step_effect step (operand (L.live live.now) cells.now x.now)) result }
{
    let x = x.copy_as_read(live)?;
    match step {
        Step::Up => raised(alloc, &x),
        Step::Down => lowered(alloc, &x),
    }
}

/// The same with its price.
fn count<L: Living>(
    alloc: Global,
    step: Step,
    x: &Value,
    cells: &Cells,
    live: &L,
    budget: &mut u64,
) -> Result<Worked, StepFault>
    ensures works { IfOk result (λ d. Works 1 (step_effect step (operand (L.live live.now) cells.now x.now)) 0 cells.now budget.old d cells.now budget.new) }
    ensures there { IfOk result (IsWorkedThere cells.now) }
{
    if !pay(budget, 1) {
        return Ok(Worked::Spent);
    }
    match stepped(alloc, step, x, cells, live) {
        Ok(v) => Ok(Worked::Value(v)),
        Err(OpFault::Run(e)) => Ok(Worked::Error(e)),
        Err(OpFault::NoMemory) => Err(StepFault::NoMemory),
    }
}

/// Takes a value from the stack, and counts on.
fn count_top(
    alloc: Global,
    step: Step,
    stack: &mut Vec<Value>,
    cells: &Cells,
    objects: &ObjectTable,
    budget: &mut u64,
) -> Result<Worked, StepFault>
    requires operands { 1 ≤ length stack.old.items }
    requires there { All (IsThere cells.now) stack.old.items }
    ensures works { IfOk result (λ d. SteppedOn step stack.old.items stack.new.items objects.now cells.now budget.old d budget.new) }
    ensures there { IfOk result (IsWorkedThere cells.now) }
{
    let x = pop(stack);
    count(alloc, step, &x, cells, objects, budget)
}

/// One more or one less of any value: takes it.
#[inline(never)]
fn on_value(
    live: &Live,
    stack: &mut Vec<Value>,
    frame: &mut Frame,
    budget: &mut u64,
    step: Step,
) -> Result<Next, StepFault>
    requires room { frame.old.at + 1 < 2 ^ 32 }
    requires operands { 1 ≤ length stack.old.items }
    requires there { All (IsThere live.now.cells) stack.old.items }
    ensures table { IfOk result (λ n. Performs (Instr.Step step) live.now stack.old.items frame.old budget.old n live.now stack.new.items frame.new budget.new) }
    ensures keeps { IfOk result (λ n. Keeps live.now stack.old.items n live.now stack.new.items) }
{
    let d = count_top(live.alloc, step, stack, &live.cells, &live.objects, budget)?;
    match d {
        Worked::Value(v) => {
            push(stack, v)?;
            frame.at += 1;
            Ok(Next::Again)
        }
        Worked::Error(e) => Ok(Next::Error(e)),
        Worked::Spent => Ok(Next::Spent),
    }
}

/// One more or one less: takes a value. Most are integers, whose result takes their place.
#[inline(always)]
pub fn step_operator(
    live: &Live,
    stack: &mut Vec<Value>,
    frame: &mut Frame,
    budget: &mut u64,
    step: Step,
) -> Result<Next, StepFault>
    requires room { frame.old.at + 1 < 2 ^ 32 }
    requires operands { 1 ≤ length stack.old.items }
    requires there { All (IsThere live.now.cells) stack.old.items }
    ensures table { IfOk result (λ n. Performs (Instr.Step step) live.now stack.old.items frame.old budget.old n live.now stack.new.items frame.new budget.new) }
    ensures keeps { IfOk result (λ n. Keeps live.now stack.old.items n live.now stack.new.items) }
{
    let is_done = count_in_place(stack, budget, step);
    if is_done {
        frame.at += 1;
        return Ok(Next::Again);
    }
    on_value(live, stack, frame, budget, step)
}
