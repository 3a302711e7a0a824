//! Jumps, turns of loops, catches and ends.
ghost use Rattle.std.specs.Prelude.{◌+◌, ◌<◌, ◌≤◌, ◌^◌, IfOk, length};
ghost use Rattle.lp_step.specs.Steps.{Keeps, Performs};

use crate::fault::StepFault;
use crate::next::Next;
use crate::stack::{is_top_zero, pay, pop, pop_catch, push_catch};
use lp_instr::instr::Instr;
use lp_values::value::{Value, is_zero};
use lp_world::frame::{Catch, Frame};
use lp_world::live::Live;

/// Goes on elsewhere.
#[inline(always)]
pub fn jump(stack: &mut Vec<Value>, frame: &mut Frame, to: u32) -> Next
    ensures table { (live : _) (budget : _) → Performs (Instr.Jump to) live stack.old.items frame.old budget result live stack.new.items frame.new budget }
    ensures keeps { (live : _) → Keeps live stack.old.items result live stack.new.items }
{
    frame.at = to;
    Next::Again
}

/// Drops the top, and goes on elsewhere where it is 0.
#[inline(always)]
pub fn jump_if_zero(live: &Live, stack: &mut Vec<Value>, frame: &mut Frame, to: u32) -> Next
    requires room { frame.old.at + 1 < 2 ^ 32 }
    requires operands { 1 ≤ length stack.old.items }
    ensures table { (budget : _) → Performs (Instr.JumpIfZero to) live.now stack.old.items frame.old budget result live.now stack.new.items frame.new budget }
    ensures keeps { Keeps live.now stack.old.items result live.now stack.new.items }
{
    let v = pop(stack);
    if is_zero(&v, &live.objects) {
        frame.at = to;
        return Next::Again;
    }
    frame.at += 1;
    Next::Again
}

/// Drops the top, and goes on elsewhere where it is not 0.
#[inline(always)]
pub fn jump_if_not_zero(live: &Live, stack: &mut Vec<Value>, frame: &mut Frame, to: u32) -> Next
    requires room { frame.old.at + 1 < 2 ^ 32 }
    requires operands { 1 ≤ length stack.old.items }
    ensures table { (budget : _) → Performs (Instr.JumpIfNotZero to) live.now stack.old.items frame.old budget result live.now stack.new.items frame.new budget }
    ensures keeps { Keeps live.now stack.old.items result live.now stack.new.items }
{
    let v = pop(stack);
    if is_zero(&v, &live.objects) {
        frame.at += 1;
        return Next::Again;
    }
    frame.at = to;
    Next::Again
}

/// Goes on elsewhere and keeps the top where it is 0, else drops it.
#[inline(always)]
pub fn keep_if_zero(live: &Live, stack: &mut Vec<Value>, frame: &mut Frame, to: u32) -> Next
    requires room { frame.old.at + 1 < 2 ^ 32 }
    requires operands { 1 ≤ length stack.old.items }
    ensures table { (budget : _) → Performs (Instr.KeepIfZero to) live.now stack.old.items frame.old budget result live.now stack.new.items frame.new budget }
    ensures keeps { Keeps live.now stack.old.items result live.now stack.new.items }
{
    if is_top_zero(stack, &live.objects) {
        frame.at = to;
        return Next::Again;
    }
    let _v = pop(stack);
    frame.at += 1;
    Next::Again
}

/// Goes on elsewhere and keeps the top where it is not 0, else drops it.
#[inline(always)]
pub fn keep_if_not_zero(live: &Live, stack: &mut Vec<Value>, frame: &mut Frame, to: u32) -> Next
    requires room { frame.old.at + 1 < 2 ^ 32 }
    requires operands { 1 ≤ length stack.old.items }
    ensures table { (budget : _) → Performs (Instr.KeepIfNotZero to) live.now stack.old.items frame.old budget result live.now stack.new.items frame.new budget }
    ensures keeps { Keeps live.now stack.old.items result live.now stack.new.items }
{
    if is_top_zero(stack, &live.objects) {
        let _v = pop(stack);
        frame.at += 1;
        return Next::Again;
    }
    frame.at = to;
    Next::Again
}

/// A turn of a loop takes 1 from the budget.
#[inline(always)]
pub fn loop_turn(stack: &mut Vec<Value>, frame: &mut Frame, budget: &mut u64) -> Next
    requires room { frame.old.at + 1 < 2 ^ 32 }
    ensures table { (live : _) → Performs Instr.LoopTurn live stack.old.items frame.old budget.old result live stack.new.items frame.new budget.new }
    ensures keeps { (live : _) → Keeps live stack.old.items result live stack.new.items }
{
    let is_paid = pay(budget, 1);
    if is_paid {
        frame.at += 1;
        return Next::Again;
    }
    Next::Spent
}

/// Opens a catch that goes on at a place.
#[inline(always)]
pub fn catch_begin(stack: &mut Vec<Value>, frame: &mut Frame, to: u32) -> Result<Next, StepFault>
    requires room { frame.old.at + 1 < 2 ^ 32 }
    requires low { length stack.old.items < 2 ^ 32 }
    ensures table { IfOk result (λ n. (live : _) (budget : _) → Performs (Instr.CatchBegin to) live stack.old.items frame.old budget n live stack.new.items frame.new budget) }
    ensures keeps { IfOk result (λ n. (live : _) → Keeps live stack.old.items n live stack.new.items) }
{
    let c = Catch {
        to,
        height: stack.len() as u32,
    };
    push_catch(&mut frame.catches, c)?;
    frame.at += 1;
    Ok(Next::Again)
}

/// Closes the innermost catch.
#[inline(always)]
pub fn catch_end(stack: &mut Vec<Value>, frame: &mut Frame) -> Next
    requires room { frame.old.at + 1 < 2 ^ 32 }
    requires open { 1 ≤ length frame.old.catches.items }
    ensures table { (live : _) (budget : _) → Performs Instr.CatchEnd live stack.old.items frame.old budget result live stack.new.items frame.new budget }
    ensures keeps { (live : _) → Keeps live stack.old.items result live stack.new.items }
{
    let _caught = pop_catch(&mut frame.catches);
    frame.at += 1;
    Next::Again
}

/// Ends the function with the top of the stack.
#[inline(always)]
pub fn returns(stack: &mut Vec<Value>, frame: &mut Frame) -> Next
    requires { 1 ≤ length stack.old.items }
    ensures table { (live : _) (budget : _) → Performs Instr.Return live stack.old.items frame.old budget result live stack.new.items frame.new budget }
    ensures keeps { (live : _) → Keeps live stack.old.items result live stack.new.items }
{
    Next::Done(pop(stack))
}

/// Ends the function with 0.
#[inline(always)]
pub fn returns_zero(stack: &mut Vec<Value>, frame: &mut Frame) -> Next
    ensures table { (live : _) (budget : _) → Performs Instr.ReturnZero live stack.old.items frame.old budget result live stack.new.items frame.new budget }
    ensures keeps { (live : _) → Keeps live stack.old.items result live stack.new.items }
{
    Next::Done(Value::Int(0))
}
