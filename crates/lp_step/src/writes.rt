//! Writing at an index.
ghost use Rattle.std.specs.Prelude.{◌≡◌, ◌+◌, ◌<◌, ◌≤◌, ◌^◌, ℕ, All, IfOk, IsSome, MatchOption, length, pos, slice_get};
ghost use Rattle.lp_cells.specs.Cells.{IsClosed, IsThere, KeepsThere, item_set, items_at, items_of, pairs_at, stored_pairs};
ghost use Rattle.lp_language.specs.Operations.{is_back};
ghost use Rattle.lp_ops.specs.Operands.{operand};
ghost use Rattle.lp_ops.specs.Operators.{place_of};
ghost use Rattle.lp_step.specs.IndexWrites.{Puts, WritesFor, WritesOn, item_write, pair_write, write};
ghost use Rattle.lp_step.specs.Steps.{Keeps, Performs};
ghost use Rattle.lp_step.specs.Works.{IsWorkedThere};

use crate::fault::StepFault;
use crate::indexing::is_back;
use crate::next::Next;
use crate::stack::{pay, pop, push};
use crate::worked::Worked;
use lp_cells::cells::Cells;
use lp_cells::fault::CellFault;
use lp_instr::instr::Instr;
use lp_ops::effect::fault;
use lp_ops::fault::OpFault;
use lp_tree::expr::Edge;
use lp_values::error::ErrorKind;
use lp_values::id::CellId;
use lp_values::value::{Living, Value};
use lp_world::frame::Frame;
use lp_world::live::Live;
use lp_world::objects::ObjectTable;
use std::alloc::{AllocError, Global};

/// The place that an index means, if there is one below the length.
fn place(n: i64, len: usize, from_end: bool) -> Option<usize>
    ensures { MatchOption result ((i : ℕ) → place_of from_end n len ≡ pos i → len ≤ i) (λ i. (place_of from_end n len ≡ pos i) × (i < len)) }
{
    if from_end {
        if n <= 0 || len < n as usize {
            return None;
        }
        return Some(len - n as usize);
    }
    if n < 0 || len <= n as usize {
        return None;
    }
    Some(n as usize)
}

/// Writes an item at a place that is there. A text keeps its memory.
fn set_item(c: CellId, i: usize, v: &Value, cells: &mut Cells) -> Result<(), AllocError>
    requires there { IsSome (items_at cells.old c) }
    requires place { i < length (items_of cells.old c) }
    ensures set { IfOk result (λ u. cells.new ≡ item_set cells.old c i v.now) }
    ensures stay { KeepsThere cells.old cells.new }
    ensures closed { IsClosed cells.old → IsThere cells.old v.now → IsClosed cells.new }
{
    let copy = v.copy()?;
    match cells.set(c, i as u64, copy) {
        Ok(()) => Ok(()),
        Err(_) => unreachable!(),
    }
}

/// Writes an item of an array.
fn put_item(
    alloc: Global,
    from_end: bool,
    c: CellId,
    n: i64,
    v: &Value,
    cells: &mut Cells,
) -> Result<(), OpFault>
    requires { IsSome (items_at cells.old c) }
    ensures puts { Puts (item_write c (place_of from_end n (length (items_of cells.old c))) (items_of cells.old c) v.now) cells.old cells.new result }
    ensures stay { KeepsThere cells.old cells.new }
    ensures closed { IsClosed cells.old → IsThere cells.old v.now → IsClosed cells.new }
{
    match place(n, cells.items(c).len(), from_end) {
        Some(i) => Ok(set_item(c, i, v, cells)?),
        None => Err(fault(alloc, ErrorKind::BadIndex)),
    }
}

/// Writes the value at a key of a mapping, which is read. Texts keep their memory.
fn put_pair<L: Living>(
    alloc: Global,
    c: CellId,
    k: &Value,
    v: &Value,
    cells: &mut Cells,
    live: &L,
) -> Result<(), OpFault>
    requires { IsSome (pairs_at cells.old c) }
    ensures puts { Puts (pair_write (L.live live.now) c (pairs_at cells.old c) k.now v.now) cells.old cells.new result }
    ensures stay { KeepsThere cells.old cells.new }
    ensures closed { IsClosed cells.old → IsThere cells.old k.now → IsThere cells.old v.now → IsClosed cells.new }
{
    let key = k.copy()?;
    let copy = v.copy()?;
    match cells.map_put(c, key, copy, live) {
        Ok(()) => Ok(()),
        Err(CellFault::TooLong) => Err(fault(alloc, ErrorKind::TooLong)),
        Err(_) => Err(OpFault::NoMemory),
    }
}

/// Writes at an index of a container, as read.
fn put<L: Living>(
    alloc: Global,
    edge: Edge,
    x: &Value,
    i: &Value,
    v: &Value,
    cells: &mut Cells,
    live: &L,
) -> Result<(), OpFault>
    requires { IsThere cells.old x.now }
    ensures puts { Puts (write (L.live live.now) cells.old edge (operand (L.live live.now) cells.old x.now) (operand (L.live live.now) cells.old i.now) i.now v.now) cells.old cells.new result }
    ensures stay { KeepsThere cells.old cells.new }
    ensures closed { IsClosed cells.old → IsThere cells.old i.now → IsThere cells.old v.now → IsClosed cells.new }
{
    let a = x.copy_as_read(live)?;
    let b = i.copy_as_read(live)?;
    match (&a, &b, edge) {
        (Value::Arr(c), Value::Int(n), _) => put_item(alloc, is_back(edge), *c, *n, v, cells),
        (Value::Map(c), _, Edge::Front) => put_pair(alloc, *c, i, v, cells, live),
        _ => Err(fault(alloc, ErrorKind::BadOperands)),
    }
}

/// A write with its price. The value is the one that is written.
fn write_value<L: Living>(
    alloc: Global,
    edge: Edge,
    x: &Value,
    i: &Value,
    v: Value,
    cells: &mut Cells,
    live: &L,
    budget: &mut u64,
) -> Result<Worked, StepFault>
    requires container { IsThere cells.old x.now }
    requires index { IsThere cells.old i.now }
    requires value { IsThere cells.old v }
    requires closed { IsClosed cells.old }
    ensures writes { IfOk result (λ d. WritesFor (write (L.live live.now) cells.old edge (operand (L.live live.now) cells.old x.now) (operand (L.live live.now) cells.old i.now) i.now v) v cells.old budget.old d cells.new budget.new) }
    ensures stay { KeepsThere cells.old cells.new }
    ensures keeps { IfOk result (λ d. IsClosed cells.new × IsWorkedThere cells.new d) }
{
    let is_paid = pay(budget, 1);
    if !is_paid {
        return Ok(Worked::Spent);
    }
    match put(alloc, edge, x, i, &v, cells, live) {
        Ok(()) => Ok(Worked::Value(v)),
        Err(OpFault::Run(e)) => Ok(Worked::Error(e)),
        Err(OpFault::NoMemory) => Err(StepFault::NoMemory),
    }
}

/// Takes three values from the stack, and writes the last to the first at the second.
fn write_top(
    alloc: Global,
    edge: Edge,
    stack: &mut Vec<Value>,
    cells: &mut Cells,
    objects: &ObjectTable,
    budget: &mut u64,
) -> Result<Worked, StepFault>
    requires operands { 3 ≤ length stack.old.items }
    requires there { All (IsThere cells.old) stack.old.items }
    requires closed { IsClosed cells.old }
    ensures writes { IfOk result (λ d. WritesOn edge stack.old.items stack.new.items objects.now cells.old budget.old d cells.new budget.new) }
    ensures stay { KeepsThere cells.old cells.new }
    ensures keeps { IfOk result (λ d. IsClosed cells.new × IsWorkedThere cells.new d) }
{
    let v = pop(stack);
    let i = pop(stack);
    let x = pop(stack);
    write_value(alloc, edge, &x, &i, v, cells, objects, budget)
}

/// Writes at an index: takes a container, the index and a value, which stays on top. The container's
/// cell is written, whoever else names it.
pub fn set_index(
    live: &mut Live,
    stack: &mut Vec<Value>,
    frame: &mut Frame,
    budget: &mut u64,
    edge: Edge,
) -> Result<Next, StepFault>
    requires room { frame.old.at + 1 < 2 ^ 32 }
    requires operands { 3 ≤ length stack.old.items }
    requires there { All (IsThere live.old.cells) stack.old.items }
    requires closed { IsClosed live.old.cells }
    ensures table { IfOk result (λ n. Performs (Instr.SetIndex edge) live.old stack.old.items frame.old budget.old n live.new stack.new.items frame.new budget.new) }
    ensures keeps { IfOk result (λ n. Keeps live.old stack.old.items n live.new stack.new.items) }
    ensures home { live.new.objects ≡ live.old.objects }
{
    let d = write_top(
        live.alloc,
        edge,
        stack,
        &mut live.cells,
        &live.objects,
        budget,
    )?;
    match d {
        Worked::Value(v) => {
            push(stack, v)?;
            frame.at += 1;
            Ok(Next::Again)
        }
        Worked::Error(e) => Ok(Next::Error(e)),
        Worked::Spent => Ok(Next::Spent),
    }
}
