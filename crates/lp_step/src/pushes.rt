//! Instructions that push, drop and copy values, and those of locals.
ghost use Rattle.std.specs.Prelude.{◌≡◌, ◌+◌, ◌<◌, ◌≤◌, ◌^◌, IfOk, Some, length, slice_get};
ghost use Rattle.lp_step.specs.Steps.{Keeps, Performs};

use crate::fault::StepFault;
use crate::next::Next;
use crate::stack::{copy_at, pop, push, write_at};
use lp_instr::instr::Instr;
use lp_values::text::Text;
use lp_values::value::Value;
use lp_world::frame::Frame;

/// Pushes an integer.
#[inline(always)]
pub fn push_int(stack: &mut Vec<Value>, frame: &mut Frame, z: i64) -> Result<Next, StepFault>
    requires { frame.old.at + 1 < 2 ^ 32 }
    ensures table { IfOk result (λ n. (live : _) (budget : _) → Performs (Instr.PushInt z) live stack.old.items frame.old budget n live stack.new.items frame.new budget) }
    ensures keeps { IfOk result (λ n. (live : _) → Keeps live stack.old.items n live stack.new.items) }
{
    push(stack, Value::Int(z))?;
    frame.at += 1;
    Ok(Next::Again)
}

/// A text of the program's list. It keeps its memory.
#[inline(always)]
fn text_at(frame: &Frame, k: u32) -> Result<Text, StepFault>
    requires { k < length frame.now.code.consts }
    ensures { IfOk result (λ t. slice_get frame.now.code.consts k ≡ Some t) }
{
    Ok(frame.code.raw().consts.as_slice()[k as usize].copy()?)
}

/// Pushes a text of the program's list.
#[inline(always)]
pub fn push_text(stack: &mut Vec<Value>, frame: &mut Frame, k: u32) -> Result<Next, StepFault>
    requires room { frame.old.at + 1 < 2 ^ 32 }
    requires there { k < length frame.old.code.consts }
    ensures table { IfOk result (λ n. (live : _) (budget : _) → Performs (Instr.PushText k) live stack.old.items frame.old budget n live stack.new.items frame.new budget) }
    ensures keeps { IfOk result (λ n. (live : _) → Keeps live stack.old.items n live stack.new.items) }
{
    let text = text_at(frame, k)?;
    push(stack, Value::Str(text))?;
    frame.at += 1;
    Ok(Next::Again)
}

/// Pushes a local.
#[inline(always)]
pub fn push_local(stack: &mut Vec<Value>, frame: &mut Frame, k: u32) -> Result<Next, StepFault>
    requires room { frame.old.at + 1 < 2 ^ 32 }
    requires there { frame.old.bottom + k < length stack.old.items }
    ensures table { IfOk result (λ n. (live : _) (budget : _) → Performs (Instr.PushLocal k) live stack.old.items frame.old budget n live stack.new.items frame.new budget) }
    ensures keeps { IfOk result (λ n. (live : _) → Keeps live stack.old.items n live stack.new.items) }
{
    let v = copy_at(stack, frame.bottom as usize + k as usize)?;
    push(stack, v)?;
    frame.at += 1;
    Ok(Next::Again)
}

/// Writes the top of the stack to a local.
#[inline(always)]
pub fn set_local(stack: &mut Vec<Value>, frame: &mut Frame, k: u32) -> Result<Next, StepFault>
    requires room { frame.old.at + 1 < 2 ^ 32 }
    requires there { frame.old.bottom + k < length stack.old.items }
    requires operands { 1 ≤ length stack.old.items }
    ensures table { IfOk result (λ n. (live : _) (budget : _) → Performs (Instr.SetLocal k) live stack.old.items frame.old budget n live stack.new.items frame.new budget) }
    ensures keeps { IfOk result (λ n. (live : _) → Keeps live stack.old.items n live stack.new.items) }
{
    let v = copy_at(stack, stack.len() - 1)?;
    write_at(stack, frame.bottom as usize + k as usize, v);
    frame.at += 1;
    Ok(Next::Again)
}

/// Drops the top of the stack.
#[inline(always)]
pub fn drop_value(stack: &mut Vec<Value>, frame: &mut Frame) -> Next
    requires room { frame.old.at + 1 < 2 ^ 32 }
    requires operands { 1 ≤ length stack.old.items }
    ensures table { (live : _) (budget : _) → Performs Instr.Pop live stack.old.items frame.old budget result live stack.new.items frame.new budget }
    ensures keeps { (live : _) → Keeps live stack.old.items result live stack.new.items }
{
    let _v = pop(stack);
    frame.at += 1;
    Next::Again
}

/// Pushes the top of the stack again.
#[inline(always)]
pub fn again_one(stack: &mut Vec<Value>, frame: &mut Frame) -> Result<Next, StepFault>
    requires room { frame.old.at + 1 < 2 ^ 32 }
    requires operands { 1 ≤ length stack.old.items }
    ensures table { IfOk result (λ n. (live : _) (budget : _) → Performs Instr.Dup live stack.old.items frame.old budget n live stack.new.items frame.new budget) }
    ensures keeps { IfOk result (λ n. (live : _) → Keeps live stack.old.items n live stack.new.items) }
{
    let v = copy_at(stack, stack.len() - 1)?;
    push(stack, v)?;
    frame.at += 1;
    Ok(Next::Again)
}

/// Pushes the two topmost values again.
#[inline(always)]
pub fn again_two(stack: &mut Vec<Value>, frame: &mut Frame) -> Result<Next, StepFault>
    requires room { frame.old.at + 1 < 2 ^ 32 }
    requires operands { 2 ≤ length stack.old.items }
    ensures table { IfOk result (λ n. (live : _) (budget : _) → Performs Instr.Dup2 live stack.old.items frame.old budget n live stack.new.items frame.new budget) }
    ensures keeps { IfOk result (λ n. (live : _) → Keeps live stack.old.items n live stack.new.items) }
{
    let below = stack.len() - 2;
    let x = copy_at(stack, below)?;
    let y = copy_at(stack, below + 1)?;
    push(stack, x)?;
    push(stack, y)?;
    frame.at += 1;
    Ok(Next::Again)
}
