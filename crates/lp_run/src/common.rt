//! Common instructions, of a frame whose place is at hand: each is done, or nothing changes and it is left to `step`.
//!
//! In the loop of `run` the place and the budget stay in registers so, and an instruction's end is one truth value.
ghost use Rattle.std.specs.Prelude.{◌≡◌, ◌+◌, ◌<◌, ◌≤◌, ◌^◌, All, IfOk, length, true};
ghost use Rattle.lp_cells.specs.Cells.{IsThere};
ghost use Rattle.lp_world.specs.Rows.{HasPlace, variables_at};
ghost use Rattle.lp_run.specs.Takes.{Does, Takes};

use crate::items::{bring_second, bring_third, indexed, put_for_two, value_at};
use lp_instr::instr::Instr;
use lp_step::fault::StepFault;
use lp_step::integers::{binary_in_place, count_in_place};
use lp_step::stack::{copy_at, is_top_zero, pay, pop, push, write_at};
use lp_tree::expr::Edge;
use lp_tree::operator::{BinOp, Step};
use lp_values::value::{Value, is_zero};
use lp_world::frame::Frame;
use lp_world::live::Live;

/// Pushes an integer.
#[inline(always)]
pub(crate) fn push_int(
    stack: &mut Vec<Value>,
    frame: &Frame,
    at: &mut u32,
    z: i64,
) -> Result<bool, StepFault>
    requires { at.old + 1 < 2 ^ 32 }
    ensures { IfOk result (λ b. (b ≡ true) × ((live : _) (budget : _) → Does (Instr.PushInt z) live stack.old.items frame.now at.old budget stack.new.items at.new budget)) }
{
    push(stack, Value::Int(z))?;
    *at += 1;
    Ok(true)
}

/// Pushes a local.
#[inline(always)]
pub(crate) fn push_local(
    stack: &mut Vec<Value>,
    frame: &Frame,
    at: &mut u32,
    k: u32,
) -> Result<bool, StepFault>
    requires room { at.old + 1 < 2 ^ 32 }
    requires there { frame.now.bottom + k < length stack.old.items }
    ensures { IfOk result (λ b. (b ≡ true) × ((live : _) (budget : _) → Does (Instr.PushLocal k) live stack.old.items frame.now at.old budget stack.new.items at.new budget)) }
{
    let v = copy_at(stack, frame.bottom as usize + k as usize)?;
    push(stack, v)?;
    *at += 1;
    Ok(true)
}

/// Pushes the top of the stack again.
#[inline(always)]
pub(crate) fn again_one(
    stack: &mut Vec<Value>,
    frame: &Frame,
    at: &mut u32,
) -> Result<bool, StepFault>
    requires room { at.old + 1 < 2 ^ 32 }
    requires operands { 1 ≤ length stack.old.items }
    ensures { IfOk result (λ b. (b ≡ true) × ((live : _) (budget : _) → Does Instr.Dup live stack.old.items frame.now at.old budget stack.new.items at.new budget)) }
{
    let v = copy_at(stack, stack.len() - 1)?;
    push(stack, v)?;
    *at += 1;
    Ok(true)
}

/// Writes the top of the stack to a local.
#[inline(always)]
pub(crate) fn set_local(
    stack: &mut Vec<Value>,
    frame: &Frame,
    at: &mut u32,
    k: u32,
) -> Result<bool, StepFault>
    requires room { at.old + 1 < 2 ^ 32 }
    requires there { frame.now.bottom + k < length stack.old.items }
    requires operands { 1 ≤ length stack.old.items }
    ensures { IfOk result (λ b. (b ≡ true) × ((live : _) (budget : _) → Does (Instr.SetLocal k) live stack.old.items frame.now at.old budget stack.new.items at.new budget)) }
{
    let v = copy_at(stack, stack.len() - 1)?;
    write_at(stack, frame.bottom as usize + k as usize, v);
    *at += 1;
    Ok(true)
}

/// Drops the top of the stack.
#[inline(always)]
pub(crate) fn drop_value(stack: &mut Vec<Value>, frame: &Frame, at: &mut u32)
    requires room { at.old + 1 < 2 ^ 32 }
    requires operands { 1 ≤ length stack.old.items }
    ensures { (live : _) (budget : _) → Does Instr.Pop live stack.old.items frame.now at.old budget stack.new.items at.new budget }
{
    let _v = pop(stack);
    *at += 1;
}

/// Goes on elsewhere.
#[inline(always)]
pub(crate) fn jump(stack: &mut Vec<Value>, frame: &Frame, at: &mut u32, to: u32)
    ensures { (live : _) (budget : _) → Does (Instr.Jump to) live stack.old.items frame.now at.old budget stack.new.items at.new budget }
{
    *at = to;
}

/// Drops the top, and goes on elsewhere where it is 0.
#[inline(always)]
pub(crate) fn jump_if_zero(
    live: &Live,
    stack: &mut Vec<Value>,
    frame: &Frame,
    at: &mut u32,
    to: u32,
)
    requires room { at.old + 1 < 2 ^ 32 }
    requires operands { 1 ≤ length stack.old.items }
    ensures { (budget : _) → Does (Instr.JumpIfZero to) live.now stack.old.items frame.now at.old budget stack.new.items at.new budget }
{
    let v = pop(stack);
    if is_zero(&v, &live.objects) {
        *at = to;
        return;
    }
    *at += 1;
}

/// Drops the top, and goes on elsewhere where it is not 0.
#[inline(always)]
pub(crate) fn jump_if_not_zero(
    live: &Live,
    stack: &mut Vec<Value>,
    frame: &Frame,
    at: &mut u32,
    to: u32,
)
    requires room { at.old + 1 < 2 ^ 32 }
    requires operands { 1 ≤ length stack.old.items }
    ensures { (budget : _) → Does (Instr.JumpIfNotZero to) live.now stack.old.items frame.now at.old budget stack.new.items at.new budget }
{
    let v = pop(stack);
    if is_zero(&v, &live.objects) {
        *at += 1;
        return;
    }
    *at = to;
}

/// Goes on elsewhere and keeps the top where it is 0, else drops it.
#[inline(always)]
pub(crate) fn keep_if_zero(
    live: &Live,
    stack: &mut Vec<Value>,
    frame: &Frame,
    at: &mut u32,
    to: u32,
)
    requires room { at.old + 1 < 2 ^ 32 }
    requires operands { 1 ≤ length stack.old.items }
    ensures { (budget : _) → Does (Instr.KeepIfZero to) live.now stack.old.items frame.now at.old budget stack.new.items at.new budget }
{
    if is_top_zero(stack, &live.objects) {
        *at = to;
        return;
    }
    let _v = pop(stack);
    *at += 1;
}

/// Goes on elsewhere and keeps the top where it is not 0, else drops it.
#[inline(always)]
pub(crate) fn keep_if_not_zero(
    live: &Live,
    stack: &mut Vec<Value>,
    frame: &Frame,
    at: &mut u32,
    to: u32,
)
    requires room { at.old + 1 < 2 ^ 32 }
    requires operands { 1 ≤ length stack.old.items }
    ensures { (budget : _) → Does (Instr.KeepIfNotZero to) live.now stack.old.items frame.now at.old budget stack.new.items at.new budget }
{
    if is_top_zero(stack, &live.objects) {
        let _v = pop(stack);
        *at += 1;
        return;
    }
    *at = to;
}

/// A turn of a loop takes 1 from the budget, if anything is left of it.
#[inline(always)]
pub(crate) fn loop_turn(stack: &mut Vec<Value>, frame: &Frame, at: &mut u32, left: &mut u64) -> bool
    requires { at.old + 1 < 2 ^ 32 }
    ensures { (live : _) → Takes Instr.LoopTurn live stack.old.items frame.now at.old left.old result stack.new.items at.new left.new }
{
    let is_paid = pay(left, 1);
    if is_paid {
        *at += 1;
        return true;
    }
    false
}

/// Pushes a variable of the object.
#[inline(always)]
pub(crate) fn push_global(
    live: &Live,
    stack: &mut Vec<Value>,
    frame: &Frame,
    at: &mut u32,
    k: u32,
) -> Result<bool, StepFault>
    requires room { at.old + 1 < 2 ^ 32 }
    requires there { HasPlace (variables_at live.now.objects frame.now.this) (frame.now.base + k) }
    ensures { IfOk result (λ b. (b ≡ true) × ((budget : _) → Does (Instr.PushGlobal k) live.now stack.old.items frame.now at.old budget stack.new.items at.new budget)) }
{
    let v = live
        .objects
        .variable(frame.this, frame.base as usize + k as usize)
        .copy()?;
    push(stack, v)?;
    *at += 1;
    Ok(true)
}

/// A binary operator on two integers, whose result takes their place.
#[inline(always)]
pub(crate) fn binary_operator(
    live: &Live,
    stack: &mut Vec<Value>,
    frame: &Frame,
    at: &mut u32,
    left: &mut u64,
    op: BinOp,
) -> bool
    requires room { at.old + 1 < 2 ^ 32 }
    requires operands { 2 ≤ length stack.old.items }
    ensures { Takes (Instr.Binary op) live.now stack.old.items frame.now at.old left.old result stack.new.items at.new left.new }
{
    let is_done = binary_in_place(stack, left, op);
    if is_done {
        *at += 1;
        return true;
    }
    false
}

/// One more or one less of an integer.
#[inline(always)]
pub(crate) fn step_operator(
    live: &Live,
    stack: &mut Vec<Value>,
    frame: &Frame,
    at: &mut u32,
    left: &mut u64,
    step: Step,
) -> bool
    requires room { at.old + 1 < 2 ^ 32 }
    requires operands { 1 ≤ length stack.old.items }
    ensures { Takes (Instr.Step step) live.now stack.old.items frame.now at.old left.old result stack.new.items at.new left.new }
{
    let is_done = count_in_place(stack, left, step);
    if is_done {
        *at += 1;
        return true;
    }
    false
}

/// Brings the second or the third value from the top to the top. What lies deeper is left.
#[inline(always)]
pub(crate) fn rotate(stack: &mut Vec<Value>, frame: &Frame, at: &mut u32, n: u32) -> bool
    requires room { at.old + 1 < 2 ^ 32 }
    requires operands { n ≤ length stack.old.items }
    ensures { (live : _) (budget : _) → Takes (Instr.Rotate n) live stack.old.items frame.now at.old budget result stack.new.items at.new budget }
{
    match n {
        2 => {
            bring_second(stack);
            *at += 1;
            true
        }
        3 => {
            bring_third(stack);
            *at += 1;
            true
        }
        _ => false,
    }
}

/// Reads at an index from the front.
#[inline(always)]
fn at_front(
    live: &Live,
    stack: &mut Vec<Value>,
    frame: &Frame,
    at: &mut u32,
    left: &mut u64,
) -> Result<bool, StepFault>
    requires room { at.old + 1 < 2 ^ 32 }
    requires operands { 2 ≤ length stack.old.items }
    requires there { All (IsThere live.now.cells) stack.old.items }
    ensures { IfOk result (λ b. Takes (Instr.Index Edge.Front) live.now stack.old.items frame.now at.old left.old b stack.new.items at.new left.new) }
{
    if *left == 0 {
        return Ok(false);
    }
    let n = stack.len();
    let x = value_at(stack, n - 2);
    let i = value_at(stack, n - 1);
    match indexed(x, i, &live.cells)? {
        Some(v) => {
            put_for_two(stack, v);
            *left -= 1;
            *at += 1;
            Ok(true)
        }
        None => Ok(false),
    }
}

/// Reads an array or a text at an index from the front that is there: what it gives takes the place of both.
#[inline(always)]
pub(crate) fn at_index(
    live: &Live,
    stack: &mut Vec<Value>,
    frame: &Frame,
    at: &mut u32,
    left: &mut u64,
    edge: Edge,
) -> Result<bool, StepFault>
    requires room { at.old + 1 < 2 ^ 32 }
    requires operands { 2 ≤ length stack.old.items }
    requires there { All (IsThere live.now.cells) stack.old.items }
    ensures { IfOk result (λ b. Takes (Instr.Index edge) live.now stack.old.items frame.now at.old left.old b stack.new.items at.new left.new) }
{
    match edge {
        Edge::Back => Ok(false),
        Edge::Front => at_front(live, stack, frame, at, left),
    }
}
