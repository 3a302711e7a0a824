//! Prefix operators.
ghost use Rattle.std.specs.Prelude.{◌≡◌, ◌+◌, ◌<◌, ◌≤◌, ◌^◌, All, IfOk, length};
ghost use Rattle.lp_cells.specs.Cells.{IsThere};
ghost use Rattle.lp_ops.specs.Operands.{operand};
ghost use Rattle.lp_ops.specs.Operators as operators;
ghost use Rattle.lp_step.specs.Steps.{Keeps, Performs};
ghost use Rattle.lp_step.specs.Works.{IsWorkedThere, UnaryOn, Works};

use crate::fault::StepFault;
use crate::next::Next;
use crate::stack::{pay, pop, push};
use crate::worked::Worked;
use lp_cells::cells::Cells;
use lp_instr::instr::Instr;
use lp_ops::fault::OpFault;
use lp_ops::unary::unary;
use lp_tree::operator::UnOp;
use lp_values::value::{Living, Value};
use lp_world::frame::Frame;
use lp_world::live::Live;
use lp_world::objects::ObjectTable;
use std::alloc::Global;

/// A prefix operator with its price. No cell changes.
fn operate<L: Living>(
    alloc: Global,
    op: UnOp,
    x: &Value,
    cells: &mut Cells,
    live: &L,
    budget: &mut u64,
) -> Result<Worked, StepFault>
    ensures works { IfOk result (λ d. Works 1 (operators.unary op (operand (L.live live.now) cells.old x.now)) 0 cells.old budget.old d cells.old budget.new) }
    ensures there { IfOk result (IsWorkedThere cells.old) }
    ensures same { cells.new ≡ cells.old }
{
    if !pay(budget, 1) {
        return Ok(Worked::Spent);
    }
    match unary(alloc, op, x, cells, live) {
        Ok(v) => Ok(Worked::Value(v)),
        Err(OpFault::Run(e)) => Ok(Worked::Error(e)),
        Err(OpFault::NoMemory) => Err(StepFault::NoMemory),
    }
}

/// Takes a value from the stack, and operates on it.
fn operate_top(
    alloc: Global,
    op: UnOp,
    stack: &mut Vec<Value>,
    cells: &mut Cells,
    objects: &ObjectTable,
    budget: &mut u64,
) -> Result<Worked, StepFault>
    requires operands { 1 ≤ length stack.old.items }
    requires there { All (IsThere cells.old) stack.old.items }
    ensures works { IfOk result (λ d. UnaryOn op stack.old.items stack.new.items objects.now cells.old budget.old d budget.new) }
    ensures there { IfOk result (IsWorkedThere cells.old) }
    ensures same { cells.new ≡ cells.old }
{
    let x = pop(stack);
    operate(alloc, op, &x, cells, objects, budget)
}

/// A prefix operator: takes its operand.
pub fn unary_operator(
    live: &mut Live,
    stack: &mut Vec<Value>,
    frame: &mut Frame,
    budget: &mut u64,
    op: UnOp,
) -> Result<Next, StepFault>
    requires room { frame.old.at + 1 < 2 ^ 32 }
    requires operands { 1 ≤ length stack.old.items }
    requires there { All (IsThere live.old.cells) stack.old.items }
    ensures table { IfOk result (λ n. Performs (Instr.Unary op) live.old stack.old.items frame.old budget.old n live.new stack.new.items frame.new budget.new) }
    ensures keeps { IfOk result (λ n. Keeps live.old stack.old.items n live.new stack.new.items) }
    ensures home { live.new.objects ≡ live.old.objects }
{
    let d = operate_top(
        live.alloc,
        op,
        stack,
        &mut live.cells,
        &live.objects,
        budget,
    )?;
    match d {
        Worked::Value(v) => {
            push(stack, v)?;
            frame.at += 1;
            Ok(Next::Again)
        }
        Worked::Error(e) => Ok(Next::Error(e)),
        Worked::Spent => Ok(Next::Spent),
    }
}
