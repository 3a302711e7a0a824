//! Binary operators.
ghost use Rattle.std.specs.Prelude.{◌≡◌, ◌+◌, ◌<◌, ◌≤◌, ◌^◌, All, IfOk, false, length, nat_lt};
ghost use Rattle.lp_cells.specs.Cells.{IsClosed, IsThere, KeepsThere, Store};
ghost use Rattle.lp_ops.specs.Effects.{Yields};
ghost use Rattle.lp_ops.specs.Operands.{operand};
ghost use Rattle.lp_ops.specs.Operators as operators;
ghost use Rattle.lp_ops.specs.Prices as prices;
ghost use Rattle.lp_ops.specs.declared.effect.Effect.{Effect};
ghost use Rattle.lp_step.specs.Steps.{Keeps, Performs};
ghost use Rattle.lp_step.specs.Works.{Acts, AreSizesSame, IsWorkedThere, Works, WorksOn};

use crate::fault::StepFault;
use crate::integers::binary_in_place;
use crate::next::Next;
use crate::stack::{pay, pop, push};
use crate::worked::Worked;
use lp_cells::cells::Cells;
use lp_instr::instr::Instr;
use lp_ops::binary::binary;
use lp_ops::fault::OpFault;
use lp_ops::price::{binary_after, binary_before};
use lp_tree::operator::BinOp;
use lp_values::value::{Living, Value};
use lp_world::frame::Frame;
use lp_world::live::Live;
use lp_world::objects::ObjectTable;
use std::alloc::Global;

/// The price of a result is paid, or the budget is spent, with the result made.
fn finish<L: Living>(op: BinOp, v: Value, cells: &Cells, live: &L, budget: &mut u64) -> Worked
    requires { IsThere cells.now v }
    ensures acts { (e : Effect) (old : Store) → Yields e old cells.now v → Acts e (prices.binary_after (L.live live.now) op old e) old budget.old result cells.now budget.new }
    ensures there { IsWorkedThere cells.now result }
{
    let after = binary_after(op, &v, cells, live);
    let is_paid = pay(budget, after);
    if is_paid {
        return Worked::Value(v);
    }
    Worked::Spent
}

/// The operator acts, and the price of its result is paid.
fn act<L: Living>(
    alloc: Global,
    op: BinOp,
    x: &Value,
    y: &Value,
    cells: &mut Cells,
    live: &L,
    budget: &mut u64,
) -> Result<Worked, StepFault>
    requires left { IsThere cells.old x.now }
    requires right { IsThere cells.old y.now }
    requires closed { IsClosed cells.old }
    ensures acts { IfOk result (λ d. Acts (operators.binary (L.live live.now) op (operand (L.live live.now) cells.old x.now) (operand (L.live live.now) cells.old y.now)) (prices.binary_after (L.live live.now) op cells.old (operators.binary (L.live live.now) op (operand (L.live live.now) cells.old x.now) (operand (L.live live.now) cells.old y.now))) cells.old budget.old d cells.new budget.new) }
    ensures sizes { IfOk result (λ d. AreSizesSame (L.live live.now) cells.old (operators.binary (L.live live.now) op (operand (L.live live.now) cells.old x.now) (operand (L.live live.now) cells.old y.now))) }
    ensures stay { KeepsThere cells.old cells.new }
    ensures keeps { IfOk result (λ d. IsClosed cells.new × IsWorkedThere cells.new d) }
{
    match binary(alloc, op, x, y, cells, live) {
        Ok(v) => Ok(finish(op, v, cells, live, budget)),
        Err(OpFault::Run(e)) => Ok(Worked::Error(e)),
        Err(OpFault::NoMemory) => Err(StepFault::NoMemory),
    }
}

/// A binary operator: its price, its value, and the price of that.
fn operate<L: Living>(
    alloc: Global,
    op: BinOp,
    x: &Value,
    y: &Value,
    cells: &mut Cells,
    live: &L,
    budget: &mut u64,
) -> Result<Worked, StepFault>
    requires left { IsThere cells.old x.now }
    requires right { IsThere cells.old y.now }
    requires closed { IsClosed cells.old }
    ensures works { IfOk result (λ d. Works (prices.binary_before op (operand (L.live live.now) cells.old x.now) (operand (L.live live.now) cells.old y.now)) (operators.binary (L.live live.now) op (operand (L.live live.now) cells.old x.now) (operand (L.live live.now) cells.old y.now)) (prices.binary_after (L.live live.now) op cells.old (operators.binary (L.live live.now) op (operand (L.live live.now) cells.old x.now) (operand (L.live live.now) cells.old y.now))) cells.old budget.old d cells.new budget.new) }
    ensures sizes { IfOk result (λ d. nat_lt budget.old (prices.binary_before op (operand (L.live live.now) cells.old x.now) (operand (L.live live.now) cells.old y.now)) ≡ false → AreSizesSame (L.live live.now) cells.old (operators.binary (L.live live.now) op (operand (L.live live.now) cells.old x.now) (operand (L.live live.now) cells.old y.now))) }
    ensures stay { KeepsThere cells.old cells.new }
    ensures keeps { IfOk result (λ d. IsClosed cells.new × IsWorkedThere cells.new d) }
{
    let before = binary_before(op, x, y, cells, live);
    let is_paid = pay(budget, before);
    if is_paid {
        return act(alloc, op, x, y, cells, live, budget);
    }
    Ok(Worked::Spent)
}

/// Takes two values from the stack, and operates on them.
fn operate_top(
    alloc: Global,
    op: BinOp,
    stack: &mut Vec<Value>,
    cells: &mut Cells,
    objects: &ObjectTable,
    budget: &mut u64,
) -> Result<Worked, StepFault>
    requires operands { 2 ≤ length stack.old.items }
    requires there { All (IsThere cells.old) stack.old.items }
    requires closed { IsClosed cells.old }
    ensures works { IfOk result (λ d. WorksOn op stack.old.items stack.new.items objects.now cells.old budget.old d cells.new budget.new) }
    ensures stay { KeepsThere cells.old cells.new }
    ensures keeps { IfOk result (λ d. IsClosed cells.new × IsWorkedThere cells.new d) }
{
    let y = pop(stack);
    let x = pop(stack);
    operate(alloc, op, &x, &y, cells, objects, budget)
}

/// A binary operator on any values: takes its operands.
#[inline(never)]
fn on_values(
    live: &mut Live,
    stack: &mut Vec<Value>,
    frame: &mut Frame,
    budget: &mut u64,
    op: BinOp,
) -> Result<Next, StepFault>
    requires room { frame.old.at + 1 < 2 ^ 32 }
    requires operands { 2 ≤ length stack.old.items }
    requires there { All (IsThere live.old.cells) stack.old.items }
    requires closed { IsClosed live.old.cells }
    ensures table { IfOk result (λ n. Performs (Instr.Binary op) live.old stack.old.items frame.old budget.old n live.new stack.new.items frame.new budget.new) }
    ensures keeps { IfOk result (λ n. Keeps live.old stack.old.items n live.new stack.new.items) }
    ensures home { live.new.objects ≡ live.old.objects }
{
    let d = operate_top(
        live.alloc,
        op,
        stack,
        &mut live.cells,
        &live.objects,
        budget,
    )?;
    match d {
        Worked::Value(v) => {
            push(stack, v)?;
            frame.at += 1;
            Ok(Next::Again)
        }
        Worked::Error(e) => Ok(Next::Error(e)),
        Worked::Spent => Ok(Next::Spent),
    }
}

/// A binary operator: takes its operands. Most are integers, whose result takes their place.
#[inline(always)]
pub fn binary_operator(
    live: &mut Live,
    stack: &mut Vec<Value>,
    frame: &mut Frame,
    budget: &mut u64,
    op: BinOp,
) -> Result<Next, StepFault>
    requires room { frame.old.at + 1 < 2 ^ 32 }
    requires operands { 2 ≤ length stack.old.items }
    requires there { All (IsThere live.old.cells) stack.old.items }
    requires closed { IsClosed live.old.cells }
    ensures table { IfOk result (λ n. Performs (Instr.Binary op) live.old stack.old.items frame.old budget.old n live.new stack.new.items frame.new budget.new) }
    ensures keeps { IfOk result (λ n. Keeps live.old stack.old.items n live.new stack.new.items) }
    ensures home { live.new.objects ≡ live.old.objects }
{
    let is_done = binary_in_place(stack, budget, op);
    if is_done {
        frame.at += 1;
        return Ok(Next::Again);
    }
    on_values(live, stack, frame, budget, op)
}
