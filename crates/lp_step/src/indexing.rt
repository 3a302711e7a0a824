//! Reading at an index.
ghost use Rattle.std.specs.Prelude.{◌≡◌, ◌+◌, ◌<◌, ◌≤◌, ◌^◌, All, IfOk, length};
ghost use Rattle.lp_cells.specs.Cells.{IsClosed, IsThere};
ghost use Rattle.lp_language.specs.Operations.{is_back};
ghost use Rattle.lp_ops.specs.Operands.{operand};
ghost use Rattle.lp_ops.specs.Operators as operators;
ghost use Rattle.lp_step.specs.Steps.{Keeps, Performs};
ghost use Rattle.lp_step.specs.Works.{IndexesOn, IsWorkedThere, Works};

use crate::fault::StepFault;
use crate::next::Next;
use crate::stack::{pay, pop, push};
use crate::worked::Worked;
use lp_cells::cells::Cells;
use lp_instr::instr::Instr;
use lp_ops::fault::OpFault;
use lp_ops::index::index;
use lp_tree::expr::Edge;
use lp_values::value::{Living, Value};
use lp_world::frame::Frame;
use lp_world::live::Live;
use lp_world::objects::ObjectTable;
use std::alloc::Global;

/// Whether an index counts from behind.
pub fn is_back(edge: Edge) -> bool
    ensures { result ≡ is_back edge }
{
    match edge {
        Edge::Front => false,
        Edge::Back => true,
    }
}

/// An index that is read, with its price.
fn read_index<L: Living>(
    alloc: Global,
    from_end: bool,
    x: &Value,
    i: &Value,
    cells: &Cells,
    live: &L,
    budget: &mut u64,
) -> Result<Worked, StepFault>
    requires { IsThere cells.now x.now }
    ensures works { IfOk result (λ d. Works 1 (operators.index (L.live live.now) from_end (operand (L.live live.now) cells.now x.now) (operand (L.live live.now) cells.now i.now)) 0 cells.now budget.old d cells.now budget.new) }
    ensures there { IsClosed cells.now → IfOk result (IsWorkedThere cells.now) }
{
    if !pay(budget, 1) {
        return Ok(Worked::Spent);
    }
    match index(alloc, x, i, from_end, cells, live) {
        Ok(v) => Ok(Worked::Value(v)),
        Err(OpFault::Run(e)) => Ok(Worked::Error(e)),
        Err(OpFault::NoMemory) => Err(StepFault::NoMemory),
    }
}

/// Takes two values from the stack, and reads the first at the second.
fn index_top(
    alloc: Global,
    from_end: bool,
    stack: &mut Vec<Value>,
    cells: &Cells,
    objects: &ObjectTable,
    budget: &mut u64,
) -> Result<Worked, StepFault>
    requires operands { 2 ≤ length stack.old.items }
    requires there { All (IsThere cells.now) stack.old.items }
    ensures works { IfOk result (λ d. IndexesOn from_end stack.old.items stack.new.items objects.now cells.now budget.old d budget.new) }
    ensures there { IsClosed cells.now → IfOk result (IsWorkedThere cells.now) }
{
    let i = pop(stack);
    let x = pop(stack);
    read_index(alloc, from_end, &x, &i, cells, objects, budget)
}

/// Reads at an index: takes a container and the index.
pub fn at_index(
    live: &Live,
    stack: &mut Vec<Value>,
    frame: &mut Frame,
    budget: &mut u64,
    edge: Edge,
) -> Result<Next, StepFault>
    requires room { frame.old.at + 1 < 2 ^ 32 }
    requires operands { 2 ≤ length stack.old.items }
    requires there { All (IsThere live.now.cells) stack.old.items }
    ensures table { IfOk result (λ n. Performs (Instr.Index edge) live.now stack.old.items frame.old budget.old n live.now stack.new.items frame.new budget.new) }
    ensures keeps { IfOk result (λ n. Keeps live.now stack.old.items n live.now stack.new.items) }
{
    let d = index_top(
        live.alloc,
        is_back(edge),
        stack,
        &live.cells,
        &live.objects,
        budget,
    )?;
    match d {
        Worked::Value(v) => {
            push(stack, v)?;
            frame.at += 1;
            Ok(Next::Again)
        }
        Worked::Error(e) => Ok(Next::Error(e)),
        Worked::Spent => Ok(Next::Spent),
    }
}
