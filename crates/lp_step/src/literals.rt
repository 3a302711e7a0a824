//! Arrays and mappings that are spelled out.
ghost use Rattle.std.specs.Prelude.{◌≡◌, ◌*◌, ◌+◌, ◌++◌, ◌<◌, ◌≤◌, ◌^◌, ⊤, All, IfOk, length};
ghost use Rattle.lp_cells.specs.Cells.{IsClosed, IsThere, KeepsThere, Store};
ghost use Rattle.lp_cells.specs.Mapping.{pairs_of};
ghost use Rattle.lp_cells.specs.Refusals.{UnlessFull};
ghost use Rattle.lp_ops.specs.Effects.{Meets, Yields};
ghost use Rattle.lp_ops.specs.Prices as prices;
ghost use Rattle.lp_ops.specs.declared.effect.Effect.{Effect};
ghost use Rattle.lp_step.specs.LiteralWorks.{SpellsOn, array_of, by_turns, mapping_of};
ghost use Rattle.lp_step.specs.Steps.{Keeps, Pays, Performs};
ghost use Rattle.lp_step.specs.Works.{Acts, IsWorkedThere, Works};
ghost use Rattle.lp_values.specs.Limits.{max_items};

use crate::fault::StepFault;
use crate::next::Next;
use crate::stack::{pay, pay_wide, push};
use crate::worked::Worked;
use lp_cells::cells::Cells;
use lp_cells::fault::CellFault;
use lp_cells::pairs::Pairs;
use lp_instr::instr::Instr;
use lp_ops::effect::{array, carry_out, fault, mapping};
use lp_ops::fault::OpFault;
use lp_ops::price::{literal_after, literal_before};
use lp_values::error::ErrorKind;
use lp_values::limits::MAX_ITEMS;
use lp_values::value::{Living, Value};
use lp_world::frame::Frame;
use lp_world::live::Live;
use lp_world::objects::ObjectTable;
use std::alloc::{AllocError, Global};

/// Takes the n topmost values.
fn take_top(stack: &mut Vec<Value>, n: usize) -> Result<Vec<Value>, AllocError>
    requires { n ≤ length stack.old.items }
    ensures { IfOk result (λ xs. (stack.old.items ≡ stack.new.items ++ xs.items) × (length xs.items ≡ n)) }
{
    let below = stack.len() - n;
    stack.split_off(below)
}

/// The pairs of keys, which are read, and values by turns. `TooLong` comes exactly above 10000 different keys.
fn pairs_by_turns<L: Living>(alloc: Global, parts: Vec<Value>, live: &L) -> Result<Pairs, CellFault>
    ensures { UnlessFull (max_items < length (pairs_of (by_turns (L.live live.now) parts.items))) (λ t. t ≡ pairs_of (by_turns (L.live live.now) parts.items)) ⊤ result }
{
    let mut all = Pairs::new(alloc);
    let mut key = None;
    for v in parts {
        match key.take() {
            None => key = Some(v),
            Some(k) => {
                all.put(k.into_read(live), v)?;
                if all.len() > MAX_ITEMS {
                    return Err(CellFault::TooLong);
                }
            }
        }
    }
    Ok(all)
}

/// A new mapping of these parts.
fn new_mapping<L: Living>(
    alloc: Global,
    parts: Vec<Value>,
    cells: &mut Cells,
    live: &L,
) -> Result<Value, OpFault>
    requires { All (IsThere cells.old) parts.items }
    ensures value { Meets (mapping_of (L.live live.now) parts.items) cells.old cells.new result }
    ensures stay { KeepsThere cells.old cells.new }
    ensures closed { IsClosed cells.old → IsClosed cells.new × IfOk result (IsThere cells.new) }
{
    match pairs_by_turns(alloc, parts, live) {
        Ok(pairs) => carry_out(alloc, mapping(pairs), cells),
        Err(CellFault::TooLong) => Err(fault(alloc, ErrorKind::TooLong)),
        Err(_) => Err(OpFault::NoMemory),
    }
}

/// The price of a literal is paid, or the budget is spent, with the cell made.
fn finish<L: Living>(v: Value, cells: &Cells, live: &L, budget: &mut u64) -> Worked
    requires { IsThere cells.now v }
    ensures acts { (e : Effect) (old : Store) → Yields e old cells.now v → Acts e (prices.literal_after (L.live live.now) old e) old budget.old result cells.now budget.new }
    ensures there { IsWorkedThere cells.now result }
{
    let after = literal_after(&v, cells, live);
    let is_paid = pay(budget, after);
    if is_paid {
        return Worked::Value(v);
    }
    Worked::Spent
}

/// An array of these items, whose first price is paid, with the price of the result.
fn spell_array<L: Living>(
    alloc: Global,
    items: Vec<Value>,
    cells: &mut Cells,
    live: &L,
    budget: &mut u64,
) -> Result<Worked, StepFault>
    requires there { All (IsThere cells.old) items.items }
    requires closed { IsClosed cells.old }
    ensures acts { IfOk result (λ d. Acts (array_of (L.live live.now) items.items) (prices.literal_after (L.live live.now) cells.old (array_of (L.live live.now) items.items)) cells.old budget.old d cells.new budget.new) }
    ensures stay { KeepsThere cells.old cells.new }
    ensures keeps { IfOk result (λ d. IsClosed cells.new × IsWorkedThere cells.new d) }
{
    match carry_out(alloc, array(items), cells) {
        Ok(v) => Ok(finish(v, cells, live, budget)),
        Err(OpFault::Run(e)) => Ok(Worked::Error(e)),
        Err(OpFault::NoMemory) => Err(StepFault::NoMemory),
    }
}

/// A mapping of these parts, whose first price is paid, with the price of the result.
fn spell_mapping<L: Living>(
    alloc: Global,
    parts: Vec<Value>,
    cells: &mut Cells,
    live: &L,
    budget: &mut u64,
) -> Result<Worked, StepFault>
    requires there { All (IsThere cells.old) parts.items }
    requires closed { IsClosed cells.old }
    ensures acts { IfOk result (λ d. Acts (mapping_of (L.live live.now) parts.items) (prices.literal_after (L.live live.now) cells.old (mapping_of (L.live live.now) parts.items)) cells.old budget.old d cells.new budget.new) }
    ensures stay { KeepsThere cells.old cells.new }
    ensures keeps { IfOk result (λ d. IsClosed cells.new × IsWorkedThere cells.new d) }
{
    match new_mapping(alloc, parts, cells, live) {
        Ok(v) => Ok(finish(v, cells, live, budget)),
        Err(OpFault::Run(e)) => Ok(Worked::Error(e)),
        Err(OpFault::NoMemory) => Err(StepFault::NoMemory),
    }
}

/// An array of these items, with its prices.
fn price_array<L: Living>(
    alloc: Global,
    items: Vec<Value>,
    cells: &mut Cells,
    live: &L,
    budget: &mut u64,
) -> Result<Worked, StepFault>
    requires there { All (IsThere cells.old) items.items }
    requires closed { IsClosed cells.old }
    ensures works { IfOk result (λ d. Works (prices.literal_before (L.live live.now) cells.old items.items) (array_of (L.live live.now) items.items) (prices.literal_after (L.live live.now) cells.old (array_of (L.live live.now) items.items)) cells.old budget.old d cells.new budget.new) }
    ensures stay { KeepsThere cells.old cells.new }
    ensures keeps { IfOk result (λ d. IsClosed cells.new × IsWorkedThere cells.new d) }
{
    let before = literal_before(items.as_slice(), cells, live);
    let is_paid = pay_wide(budget, before);
    if is_paid {
        return spell_array(alloc, items, cells, live, budget);
    }
    Ok(Worked::Spent)
}

/// A mapping of these parts, with its prices.
fn price_mapping<L: Living>(
    alloc: Global,
    parts: Vec<Value>,
    cells: &mut Cells,
    live: &L,
    budget: &mut u64,
) -> Result<Worked, StepFault>
    requires there { All (IsThere cells.old) parts.items }
    requires closed { IsClosed cells.old }
    ensures works { IfOk result (λ d. Works (prices.literal_before (L.live live.now) cells.old parts.items) (mapping_of (L.live live.now) parts.items) (prices.literal_after (L.live live.now) cells.old (mapping_of (L.live live.now) parts.items)) cells.old budget.old d cells.new budget.new) }
    ensures stay { KeepsThere cells.old cells.new }
    ensures keeps { IfOk result (λ d. IsClosed cells.new × IsWorkedThere cells.new d) }
{
    let before = literal_before(parts.as_slice(), cells, live);
    let is_paid = pay_wide(budget, before);
    if is_paid {
        return spell_mapping(alloc, parts, cells, live, budget);
    }
    Ok(Worked::Spent)
}

/// Takes n values from the stack, and makes an array of them.
fn array_top(
    alloc: Global,
    n: usize,
    stack: &mut Vec<Value>,
    cells: &mut Cells,
    objects: &ObjectTable,
    budget: &mut u64,
) -> Result<Worked, StepFault>
    requires operands { n ≤ length stack.old.items }
    requires there { All (IsThere cells.old) stack.old.items }
    requires closed { IsClosed cells.old }
    ensures works { IfOk result (λ d. SpellsOn array_of n stack.old.items stack.new.items objects.now cells.old budget.old d cells.new budget.new) }
    ensures stay { KeepsThere cells.old cells.new }
    ensures keeps { IfOk result (λ d. IsClosed cells.new × IsWorkedThere cells.new d) }
{
    let items = take_top(stack, n)?;
    price_array(alloc, items, cells, objects, budget)
}

/// Takes n values from the stack, and makes a mapping of them.
fn mapping_top(
    alloc: Global,
    n: usize,
    stack: &mut Vec<Value>,
    cells: &mut Cells,
    objects: &ObjectTable,
    budget: &mut u64,
) -> Result<Worked, StepFault>
    requires operands { n ≤ length stack.old.items }
    requires there { All (IsThere cells.old) stack.old.items }
    requires closed { IsClosed cells.old }
    ensures works { IfOk result (λ d. SpellsOn mapping_of n stack.old.items stack.new.items objects.now cells.old budget.old d cells.new budget.new) }
    ensures stay { KeepsThere cells.old cells.new }
    ensures keeps { IfOk result (λ d. IsClosed cells.new × IsWorkedThere cells.new d) }
{
    let parts = take_top(stack, n)?;
    price_mapping(alloc, parts, cells, objects, budget)
}

/// An array that is spelled out: takes its items, which become the new cell's.
pub fn make_array(
    live: &mut Live,
    stack: &mut Vec<Value>,
    frame: &mut Frame,
    budget: &mut u64,
    n: u32,
) -> Result<Next, StepFault>
    requires room { frame.old.at + 1 < 2 ^ 32 }
    requires operands { n ≤ length stack.old.items }
    requires there { All (IsThere live.old.cells) stack.old.items }
    requires closed { IsClosed live.old.cells }
    ensures table { IfOk result (λ d. Performs (Instr.MakeArray n) live.old stack.old.items frame.old budget.old d live.new stack.new.items frame.new budget.new) }
    ensures keeps { IfOk result (λ d. Keeps live.old stack.old.items d live.new stack.new.items) }
    ensures home { live.new.objects ≡ live.old.objects }
{
    let d = array_top(
        live.alloc,
        n as usize,
        stack,
        &mut live.cells,
        &live.objects,
        budget,
    )?;
    match d {
        Worked::Value(v) => {
            push(stack, v)?;
            frame.at += 1;
            Ok(Next::Again)
        }
        Worked::Error(e) => Ok(Next::Error(e)),
        Worked::Spent => Ok(Next::Spent),
    }
}

/// A mapping that is spelled out: takes its keys and values, by turns.
pub fn make_map(
    live: &mut Live,
    stack: &mut Vec<Value>,
    frame: &mut Frame,
    budget: &mut u64,
    n: u32,
) -> Result<Next, StepFault>
    requires room { frame.old.at + 1 < 2 ^ 32 }
    requires operands { 2 * n ≤ length stack.old.items }
    requires there { All (IsThere live.old.cells) stack.old.items }
    requires closed { IsClosed live.old.cells }
    ensures table { IfOk result (λ d. Performs (Instr.MakeMap n) live.old stack.old.items frame.old budget.old d live.new stack.new.items frame.new budget.new) }
    ensures keeps { IfOk result (λ d. Keeps live.old stack.old.items d live.new stack.new.items) }
    ensures home { live.new.objects ≡ live.old.objects }
{
    let d = mapping_top(
        live.alloc,
        2 * n as usize,
        stack,
        &mut live.cells,
        &live.objects,
        budget,
    )?;
    match d {
        Worked::Value(v) => {
            push(stack, v)?;
            frame.at += 1;
            Ok(Next::Again)
        }
        Worked::Error(e) => Ok(Next::Error(e)),
        Worked::Spent => Ok(Next::Spent),
    }
}
