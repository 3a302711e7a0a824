//! Copies that loops go over.
ghost use Rattle.std.specs.Prelude.{◌≡◌, ◌+◌, ◌<◌, ◌≤◌, ◌^◌, All, IfOk, IsSome, length};
ghost use Rattle.lp_cells.specs.Cells.{IsClosed, IsThere, items_at, items_of, pairs_at, stored_pairs};
ghost use Rattle.lp_cells.specs.Mapping.{HasDistinctKeys, pairs_there};
ghost use Rattle.lp_language.specs.Operations.{copy_effect};
ghost use Rattle.lp_ops.specs.Effects.{Meets};
ghost use Rattle.lp_ops.specs.Operands.{operand};
ghost use Rattle.lp_ops.specs.Operators.{array, mapping};
ghost use Rattle.lp_step.specs.Each.{CopiesOn};
ghost use Rattle.lp_step.specs.Steps.{Keeps, Performs};

use crate::fault::StepFault;
use crate::next::Next;
use crate::stack::{pop, push};
use lp_cells::cells::Cells;
use lp_cells::pairs::Pairs;
use lp_instr::instr::Instr;
use lp_ops::effect::fault;
use lp_ops::fault::OpFault;
use lp_ops::list::copies;
use lp_values::error::ErrorKind;
use lp_values::id::CellId;
use lp_values::value::{Living, Value, as_read};
use lp_world::frame::Frame;
use lp_world::live::Live;
use lp_world::objects::ObjectTable;
use std::alloc::{AllocError, Global};

/// A new array of the items of an array. One that is longer than an array may be, which no operation makes,
/// answers as where memory is wanting.
fn copy_array(alloc: Global, c: CellId, cells: &mut Cells) -> Result<Value, OpFault>
    requires { IsSome (items_at cells.old c) }
    ensures { Meets (array (items_of cells.old c)) cells.old cells.new result }
{
    let items = copies(alloc, cells.items(c))?;
    match cells.new_array(items) {
        Ok(copy) => Ok(Value::Arr(copy)),
        Err(_) => Err(OpFault::NoMemory),
    }
}

/// The pairs of a mapping that are there.
#[tactic(auto, using(crate::proofs::Begun::there_again))]
fn copy_pairs<L: Living>(alloc: Global, pairs: &Pairs, live: &L) -> Result<Pairs, AllocError>
    requires { HasDistinctKeys pairs.now }
    ensures { IfOk result (λ copy. copy ≡ pairs_there (L.live live.now) pairs.now) }
{
    Pairs::new(alloc).with_there(pairs, live)
}

/// A new mapping of the pairs of a mapping that are there. One with more pairs than a mapping may have answers
/// as where memory is wanting.
fn copy_mapping<L: Living>(
    alloc: Global,
    c: CellId,
    cells: &mut Cells,
    live: &L,
) -> Result<Value, OpFault>
    requires { IsSome (pairs_at cells.old c) }
    ensures { Meets (mapping (pairs_there (L.live live.now) (stored_pairs cells.old c))) cells.old cells.new result }
{
    let pairs = copy_pairs(alloc, cells.pairs(c), live)?;
    match cells.new_mapping(pairs) {
        Ok(copy) => Ok(Value::Map(copy)),
        Err(_) => Err(OpFault::NoMemory),
    }
}

/// The copy of an array or a mapping, in a new cell. Nothing else is gone over.
fn copy<L: Living>(alloc: Global, x: &Value, cells: &mut Cells, live: &L) -> Result<Value, OpFault>
    requires { IsThere cells.old x.now }
    ensures { Meets (copy_effect (operand (L.live live.now) cells.old x.now)) cells.old cells.new result }
{
    match as_read(x, live) {
        Some(Value::Arr(c)) => copy_array(alloc, *c, cells),
        Some(Value::Map(c)) => copy_mapping(alloc, *c, cells, live),
        _ => Err(fault(alloc, ErrorKind::BadOperands)),
    }
}

/// Takes a value from the stack, and copies what it names.
fn copy_top(
    alloc: Global,
    stack: &mut Vec<Value>,
    cells: &mut Cells,
    objects: &ObjectTable,
) -> Result<Value, OpFault>
    requires operands { 1 ≤ length stack.old.items }
    requires there { All (IsThere cells.old) stack.old.items }
    ensures { CopiesOn stack.old.items stack.new.items objects.now cells.old cells.new result }
{
    let x = pop(stack);
    copy(alloc, &x, cells, objects)
}

/// Begins a loop: takes an array or a mapping, and leaves its copy and the first place. The number of
/// variables says nothing here.
pub fn each_begin(
    live: &mut Live,
    stack: &mut Vec<Value>,
    frame: &mut Frame,
) -> Result<Next, StepFault>
    requires room { frame.old.at + 1 < 2 ^ 32 }
    requires operands { 1 ≤ length stack.old.items }
    requires there { All (IsThere live.old.cells) stack.old.items }
    requires closed { IsClosed live.old.cells }
    ensures table { (variables : _) → IfOk result (λ n. (budget : _) → Performs (Instr.EachBegin variables) live.old stack.old.items frame.old budget n live.new stack.new.items frame.new budget) }
    ensures keeps { IfOk result (λ n. Keeps live.old stack.old.items n live.new stack.new.items) }
    ensures home { live.new.objects ≡ live.old.objects }
{
    match copy_top(live.alloc, stack, &mut live.cells, &live.objects) {
        Ok(copy) => {
            push(stack, copy)?;
            push(stack, Value::Int(0))?;
            frame.at += 1;
            Ok(Next::Again)
        }
        Err(OpFault::Run(e)) => Ok(Next::Error(e)),
        Err(OpFault::NoMemory) => Err(StepFault::NoMemory),
    }
}
