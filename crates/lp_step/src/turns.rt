//! Turns of a loop over a copy.
ghost use Rattle.std.specs.Prelude.{◌≡◌, ◌+◌, ◌<◌, ◌≤◌, ◌^◌, ◌++◌, ◌∷◌, [], All, IfOk, IsFalse, IsTrue, List, Some, length, nat_eq, pos, slice_get};
ghost use Rattle.lp_values.specs.declared.value.Value.{Value as V};
ghost use Rattle.lp_cells.specs.Cells.{IsThere};
ghost use Rattle.lp_isa.specs.Machine.{place_in};
ghost use Rattle.lp_language.specs.Operations.{item_row, pair_row};
ghost use Rattle.lp_world.specs.Matches.{laid};
ghost use Rattle.lp_step.specs.Each.{HasNext, TurnsOn, TurnsTo, row_in, row_of};
ghost use Rattle.lp_step.specs.Steps.{Keeps, Performs};

use crate::fault::StepFault;
use crate::next::Next;
use crate::stack::{pop, push};
use lp_cells::cells::Cells;
use lp_cells::pairs::Pairs;
use lp_instr::instr::Instr;
use lp_values::value::Value;
use lp_world::frame::Frame;
use lp_world::live::Live;
use std::alloc::AllocError;

/// What a turn gives to the variables of a loop.
#[derive(Drop)]
pub enum Turn {
    /// Nothing: the loop is over.
    Over,
    /// A value to the only one.
    One(Value),
    /// Values to the first and to the second one.
    Two(Value, Value),
}

/// The place that a value on the stack tells. What is no place tells the first one.
fn place_in(v: &Value) -> u64
    ensures value { result ≡ place_in v.now }
    ensures small { result < 2 ^ 63 }
{
    match v {
        Value::Int(n) => if *n < 0 { 0 } else { *n as u64 },
        _ => 0,
    }
}

/// Whether a loop has two variables.
fn has_two(n: u32) -> bool
    ensures { result ≡ nat_eq n 2 }
{
    n == 2
}

/// What an item gives: itself, and 0 to a second variable.
fn item_turn(item: &Value, is_pair: bool, k: u64) -> Result<Turn, AllocError>
    requires { k + 1 < 2 ^ 63 }
    ensures row { IfOk result (λ t. row_of t ≡ item_row is_pair (Some item.now)) }
    ensures next { IfOk result (HasNext k) }
{
    let v = item.copy()?;
    if is_pair {
        return Ok(Turn::Two(v, Value::Int(0)));
    }
    Ok(Turn::One(v))
}

/// What a pair gives: its key, and its value to a second variable.
fn pair_turn(key: &Value, v: &Value, is_pair: bool, k: u64) -> Result<Turn, AllocError>
    requires { k + 1 < 2 ^ 63 }
    ensures row { IfOk result (λ t. row_of t ≡ pair_row is_pair (Some (key.now, v.now))) }
    ensures next { IfOk result (HasNext k) }
{
    let key = key.copy()?;
    if is_pair {
        return Ok(Turn::Two(key, v.copy()?));
    }
    Ok(Turn::One(key))
}

/// A turn over an array.
fn array_turn(items: &[Value], k: u64, is_pair: bool) -> Result<Turn, AllocError>
    ensures row { IfOk result (λ t. row_of t ≡ item_row is_pair (slice_get items.now k)) }
    ensures next { IfOk result (HasNext k) }
{
    if k >= items.len() as u64 {
        return Ok(Turn::Over);
    }
    item_turn(&items[k as usize], is_pair, k)
}

/// A turn over a mapping. Each stored pair counts, also where its key has died since.
fn mapping_turn(pairs: &Pairs, k: u64, is_pair: bool) -> Result<Turn, AllocError>
    ensures row { IfOk result (λ t. row_of t ≡ pair_row is_pair (slice_get pairs.now k)) }
    ensures next { IfOk result (HasNext k) }
{
    if k >= pairs.len() as u64 {
        return Ok(Turn::Over);
    }
    match pairs.at(k as usize) {
        Some((key, v)) => pair_turn(key, v, is_pair, k),
        None => Ok(Turn::Over),
    }
}

/// A turn over a copy.
fn turn_at(copy: &Value, k: u64, is_pair: bool, cells: &Cells) -> Result<Turn, AllocError>
    requires { IsThere cells.now copy.now }
    ensures row { IfOk result (λ t. row_of t ≡ row_in is_pair cells.now copy.now k) }
    ensures next { IfOk result (HasNext k) }
{
    match copy {
        Value::Arr(c) => array_turn(cells.items(*c), k, is_pair),
        Value::Map(c) => mapping_turn(cells.pairs(*c), k, is_pair),
        _ => Ok(Turn::Over),
    }
}

/// A turn over the copy on top of the stack.
fn top_turn(stack: &Vec<Value>, k: u64, is_pair: bool, cells: &Cells) -> Result<Turn, StepFault>
    requires operands { 1 ≤ length stack.now.items }
    requires there { All (IsThere cells.now) stack.now.items }
    ensures row { IfOk result (λ t. (rest : List V) (copy : V) → stack.now.items ≡ rest ++ copy ∷ [] → row_of t ≡ row_in is_pair cells.now copy k) }
    ensures next { IfOk result (HasNext k) }
{
    Ok(turn_at(&stack[stack.len() - 1], k, is_pair, cells)?)
}

/// Puts the next place and a value on top.
fn put_one(stack: &mut Vec<Value>, k: u64, v: Value) -> Result<bool, StepFault>
    requires { k + 1 < 2 ^ 63 }
    ensures { IfOk result (λ goes_on. IsTrue goes_on × (stack.new.items ≡ laid (stack.old.items ++ Value.Int (pos (k + 1)) ∷ []) (v ∷ []))) }
{
    push(stack, Value::Int(k as i64 + 1))?;
    push(stack, v)?;
    Ok(true)
}

/// Puts the next place and two values on top, the first one last.
fn put_two(stack: &mut Vec<Value>, k: u64, v: Value, w: Value) -> Result<bool, StepFault>
    requires { k + 1 < 2 ^ 63 }
    ensures { IfOk result (λ goes_on. IsTrue goes_on × (stack.new.items ≡ laid (stack.old.items ++ Value.Int (pos (k + 1)) ∷ []) (v ∷ w ∷ []))) }
{
    push(stack, Value::Int(k as i64 + 1))?;
    push(stack, w)?;
    push(stack, v)?;
    Ok(true)
}

/// Takes the copy, over which a loop has gone.
fn drop_copy(stack: &mut Vec<Value>) -> bool
    requires { 1 ≤ length stack.old.items }
    ensures over { IsFalse result }
    ensures taken { (rest : List V) (copy : V) → stack.old.items ≡ rest ++ copy ∷ [] → stack.new.items ≡ rest }
{
    let _copy = pop(stack);
    false
}

/// Goes on with the next turn, or takes the copy: whether there is a turn.
fn go_on(stack: &mut Vec<Value>, k: u64, turn: Turn) -> Result<bool, StepFault>
    requires operands { 1 ≤ length stack.old.items }
    requires next { HasNext k turn }
    ensures { IfOk result (λ goes_on. (rest : List V) (copy : V) → stack.old.items ≡ rest ++ copy ∷ [] → TurnsTo goes_on (row_of turn) rest copy k stack.new.items) }
{
    match turn {
        Turn::Over => Ok(drop_copy(stack)),
        Turn::One(v) => put_one(stack, k, v),
        Turn::Two(v, w) => put_two(stack, k, v, w),
    }
}

/// A turn over a copy and with a place in it, both on the stack: whether there is one.
fn next_turn(stack: &mut Vec<Value>, is_pair: bool, cells: &Cells) -> Result<bool, StepFault>
    requires operands { 2 ≤ length stack.old.items }
    requires there { All (IsThere cells.now) stack.old.items }
    ensures { IfOk result (TurnsOn is_pair stack.old.items stack.new.items cells.now) }
{
    let k = place_in(&pop(stack));
    let turn = top_turn(stack, k, is_pair, cells)?;
    go_on(stack, k, turn)
}

/// Goes on elsewhere with the next values for so many variables, if there are any: takes a copy and a place
/// in it, and leaves them and the values, or nothing.
pub fn each_next(
    live: &Live,
    stack: &mut Vec<Value>,
    frame: &mut Frame,
    to: u32,
    n: u32,
) -> Result<Next, StepFault>
    requires room { frame.old.at + 1 < 2 ^ 32 }
    requires operands { 2 ≤ length stack.old.items }
    requires there { All (IsThere live.now.cells) stack.old.items }
    ensures table { IfOk result (λ next. (budget : _) → Performs (Instr.EachNext to n) live.now stack.old.items frame.old budget next live.now stack.new.items frame.new budget) }
    ensures keeps { IfOk result (λ next. Keeps live.now stack.old.items next live.now stack.new.items) }
{
    let goes_on = next_turn(stack, has_two(n), &live.cells)?;
    if goes_on {
        frame.at = to;
        return Ok(Next::Again);
    }
    frame.at += 1;
    Ok(Next::Again)
}
