//! Ranges.
ghost use Rattle.std.specs.Prelude.{◌≡◌, ◌+◌, ◌<◌, ◌≤◌, ◌^◌, All, IfOk, length};
ghost use Rattle.lp_cells.specs.Cells.{IsClosed, IsThere, KeepsThere, Store};
ghost use Rattle.lp_instr.specs.Sound.{end_count};
ghost use Rattle.lp_language.specs.Operations.{bound_of, part_between};
ghost use Rattle.lp_ops.specs.Effects.{Meets, Yields};
ghost use Rattle.lp_ops.specs.Operands.{operand};
ghost use Rattle.lp_ops.specs.Prices as prices;
ghost use Rattle.lp_ops.specs.declared.effect.Effect.{Effect};
ghost use Rattle.lp_step.specs.RangeWorks.{EndOn, RangesOn, number_of};
ghost use Rattle.lp_step.specs.Steps.{Keeps, Performs};
ghost use Rattle.lp_step.specs.Works.{Acts, IsWorkedThere, Works};

use crate::fault::StepFault;
use crate::next::Next;
use crate::stack::{pay, pay_wide, pop, push};
use crate::worked::Worked;
use lp_cells::cells::Cells;
use lp_instr::instr::{EndKind, Instr};
use lp_ops::effect::fault;
use lp_ops::end::End;
use lp_ops::fault::OpFault;
use lp_ops::price::{range_after, range_before};
use lp_ops::range::range;
use lp_values::error::ErrorKind;
use lp_values::value::{Living, Value, as_read};
use lp_world::frame::Frame;
use lp_world::live::Live;
use lp_world::objects::ObjectTable;
use std::alloc::Global;

/// The value of an end on top of the stack; of an open one 0.
fn pop_end(kind: EndKind, stack: &mut Vec<Value>) -> Value
    requires { end_count kind ≤ length stack.old.items }
    ensures { EndOn kind stack.old.items stack.new.items result }
{
    match kind {
        EndKind::Start => pop(stack),
        EndKind::Back => pop(stack),
        EndKind::Open => Value::Int(0),
    }
}

/// The integer that a value reads as, if it is one.
fn number<L: Living>(v: &Value, live: &L) -> Option<i64>
    ensures { (cells : Store) → number_of (operand (L.live live.now) cells v.now) ≡ result }
{
    match as_read(v, live) {
        Some(Value::Int(n)) => Some(*n),
        Some(_) => None,
        None => Some(0),
    }
}

/// How an end of a range is meant, if its value is one.
fn end_of<L: Living>(kind: EndKind, v: &Value, live: &L) -> Option<End>
    ensures { (cells : Store) → bound_of kind (operand (L.live live.now) cells v.now) ≡ result }
{
    match kind {
        EndKind::Start => Some(End::Start(number(v, live)?)),
        EndKind::Back => Some(End::Back(number(v, live)?)),
        EndKind::Open => Some(End::Open),
    }
}

/// A range from one end to the other; an end that is none is refused.
fn part_of<L: Living>(
    alloc: Global,
    x: &Value,
    from: Option<End>,
    to: Option<End>,
    cells: &mut Cells,
    live: &L,
) -> Result<Value, OpFault>
    requires { IsThere cells.old x.now }
    ensures value { Meets (part_between (operand (L.live live.now) cells.old x.now) from to) cells.old cells.new result }
    ensures stay { KeepsThere cells.old cells.new }
    ensures closed { IsClosed cells.old → IsClosed cells.new × IfOk result (IsThere cells.new) }
{
    match (from, to) {
        (Some(from), Some(to)) => range(alloc, x, from, to, cells, live),
        _ => Err(fault(alloc, ErrorKind::BadOperands)),
    }
}

/// The price of a range is paid, or the budget is spent, with the range made.
fn finish<L: Living>(v: Value, cells: &Cells, live: &L, budget: &mut u64) -> Worked
    requires { IsThere cells.now v }
    ensures acts { (e : Effect) (old : Store) → Yields e old cells.now v → Acts e (prices.range_after (L.live live.now) old e) old budget.old result cells.now budget.new }
    ensures there { IsWorkedThere cells.now result }
{
    let after = range_after(&v, cells, live);
    let is_paid = pay(budget, after);
    if is_paid {
        return Worked::Value(v);
    }
    Worked::Spent
}

/// A range whose first price is paid, with the price of the result.
fn act<L: Living>(
    alloc: Global,
    x: &Value,
    from: Option<End>,
    to: Option<End>,
    cells: &mut Cells,
    live: &L,
    budget: &mut u64,
) -> Result<Worked, StepFault>
    requires there { IsThere cells.old x.now }
    requires closed { IsClosed cells.old }
    ensures acts { IfOk result (λ d. Acts (part_between (operand (L.live live.now) cells.old x.now) from to) (prices.range_after (L.live live.now) cells.old (part_between (operand (L.live live.now) cells.old x.now) from to)) cells.old budget.old d cells.new budget.new) }
    ensures stay { KeepsThere cells.old cells.new }
    ensures keeps { IfOk result (λ d. IsClosed cells.new × IsWorkedThere cells.new d) }
{
    match part_of(alloc, x, from, to, cells, live) {
        Ok(v) => Ok(finish(v, cells, live, budget)),
        Err(OpFault::Run(e)) => Ok(Worked::Error(e)),
        Err(OpFault::NoMemory) => Err(StepFault::NoMemory),
    }
}

/// A range with its prices, of which the first is given.
fn operate<L: Living>(
    alloc: Global,
    before: u128,
    x: &Value,
    from: Option<End>,
    to: Option<End>,
    cells: &mut Cells,
    live: &L,
    budget: &mut u64,
) -> Result<Worked, StepFault>
    requires there { IsThere cells.old x.now }
    requires closed { IsClosed cells.old }
    ensures works { IfOk result (λ d. Works before (part_between (operand (L.live live.now) cells.old x.now) from to) (prices.range_after (L.live live.now) cells.old (part_between (operand (L.live live.now) cells.old x.now) from to)) cells.old budget.old d cells.new budget.new) }
    ensures stay { KeepsThere cells.old cells.new }
    ensures keeps { IfOk result (λ d. IsClosed cells.new × IsWorkedThere cells.new d) }
{
    let is_paid = pay_wide(budget, before);
    if is_paid {
        return act(alloc, x, from, to, cells, live, budget);
    }
    Ok(Worked::Spent)
}

/// A range between ends that are given by values.
fn operate_ends<L: Living>(
    alloc: Global,
    from: EndKind,
    to: EndKind,
    x: &Value,
    a: &Value,
    b: &Value,
    cells: &mut Cells,
    live: &L,
    budget: &mut u64,
) -> Result<Worked, StepFault>
    requires there { IsThere cells.old x.now }
    requires first { IsThere cells.old a.now }
    requires last { IsThere cells.old b.now }
    requires closed { IsClosed cells.old }
    ensures works { IfOk result (λ d. Works (prices.range_before (operand (L.live live.now) cells.old x.now) (operand (L.live live.now) cells.old a.now) (operand (L.live live.now) cells.old b.now)) (part_between (operand (L.live live.now) cells.old x.now) (bound_of from (operand (L.live live.now) cells.old a.now)) (bound_of to (operand (L.live live.now) cells.old b.now))) (prices.range_after (L.live live.now) cells.old (part_between (operand (L.live live.now) cells.old x.now) (bound_of from (operand (L.live live.now) cells.old a.now)) (bound_of to (operand (L.live live.now) cells.old b.now)))) cells.old budget.old d cells.new budget.new) }
    ensures stay { KeepsThere cells.old cells.new }
    ensures keeps { IfOk result (λ d. IsClosed cells.new × IsWorkedThere cells.new d) }
{
    let before = range_before(x, a, b, cells, live);
    let first = end_of(from, a, live);
    let last = end_of(to, b, live);
    operate(alloc, before, x, first, last, cells, live, budget)
}

/// Takes the ends that are given and a value from the stack, and makes the range.
fn operate_top(
    alloc: Global,
    from: EndKind,
    to: EndKind,
    stack: &mut Vec<Value>,
    cells: &mut Cells,
    objects: &ObjectTable,
    budget: &mut u64,
) -> Result<Worked, StepFault>
    requires operands { 1 + end_count from + end_count to ≤ length stack.old.items }
    requires there { All (IsThere cells.old) stack.old.items }
    requires closed { IsClosed cells.old }
    ensures works { IfOk result (λ d. RangesOn from to stack.old.items stack.new.items objects.now cells.old budget.old d cells.new budget.new) }
    ensures stay { KeepsThere cells.old cells.new }
    ensures keeps { IfOk result (λ d. IsClosed cells.new × IsWorkedThere cells.new d) }
{
    let b = pop_end(to, stack);
    let a = pop_end(from, stack);
    let x = pop(stack);
    operate_ends(alloc, from, to, &x, &a, &b, cells, objects, budget)
}

/// A range: takes the ends that are given, and a value.
pub fn cut_range(
    live: &mut Live,
    stack: &mut Vec<Value>,
    frame: &mut Frame,
    budget: &mut u64,
    from: EndKind,
    to: EndKind,
) -> Result<Next, StepFault>
    requires room { frame.old.at + 1 < 2 ^ 32 }
    requires operands { 1 + end_count from + end_count to ≤ length stack.old.items }
    requires there { All (IsThere live.old.cells) stack.old.items }
    requires closed { IsClosed live.old.cells }
    ensures table { IfOk result (λ n. Performs (Instr.Range from to) live.old stack.old.items frame.old budget.old n live.new stack.new.items frame.new budget.new) }
    ensures keeps { IfOk result (λ n. Keeps live.old stack.old.items n live.new stack.new.items) }
    ensures home { live.new.objects ≡ live.old.objects }
{
    let d = operate_top(
        live.alloc,
        from,
        to,
        stack,
        &mut live.cells,
        &live.objects,
        budget,
    )?;
    match d {
        Worked::Value(v) => {
            push(stack, v)?;
            frame.at += 1;
            Ok(Next::Again)
        }
        Worked::Error(e) => Ok(Next::Error(e)),
        Worked::Spent => Ok(Next::Spent),
    }
}
