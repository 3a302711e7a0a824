//! Variables of objects.
ghost use Rattle.std.specs.Prelude.{◌+◌, ◌<◌, ◌≤◌, ◌^◌, IfOk, length};
ghost use Rattle.lp_world.specs.Rows.{HasPlace, variables_at};
ghost use Rattle.lp_step.specs.Steps.{Keeps, KeepsVariables, Performs};

use crate::fault::StepFault;
use crate::next::Next;
use crate::stack::{copy_at, push};
use lp_instr::instr::Instr;
use lp_values::value::Value;
use lp_world::frame::Frame;
use lp_world::live::Live;

/// Pushes a variable of the object.
#[inline(always)]
pub fn push_global(
    live: &Live,
    stack: &mut Vec<Value>,
    frame: &mut Frame,
    k: u32,
) -> Result<Next, StepFault>
    requires room { frame.old.at + 1 < 2 ^ 32 }
    requires there { HasPlace (variables_at live.now.objects frame.old.this) (frame.old.base + k) }
    ensures table { IfOk result (λ n. (budget : _) → Performs (Instr.PushGlobal k) live.now stack.old.items frame.old budget n live.now stack.new.items frame.new budget) }
    ensures keeps { IfOk result (λ n. Keeps live.now stack.old.items n live.now stack.new.items) }
{
    let v = live
        .objects
        .variable(frame.this, frame.base as usize + k as usize)
        .copy()?;
    push(stack, v)?;
    frame.at += 1;
    Ok(Next::Again)
}

/// Writes the top of the stack to a variable of the object.
#[inline(always)]
pub fn set_global(
    live: &mut Live,
    stack: &mut Vec<Value>,
    frame: &mut Frame,
    k: u32,
) -> Result<Next, StepFault>
    requires room { frame.old.at + 1 < 2 ^ 32 }
    requires there { HasPlace (variables_at live.old.objects frame.old.this) (frame.old.base + k) }
    requires operands { 1 ≤ length stack.old.items }
    ensures table { IfOk result (λ n. (budget : _) → Performs (Instr.SetGlobal k) live.old stack.old.items frame.old budget n live.new stack.new.items frame.new budget) }
    ensures keeps { IfOk result (λ n. Keeps live.old stack.old.items n live.new stack.new.items) }
    ensures home { IfOk result (λ n. KeepsVariables live.old.objects live.new.objects) }
{
    let v = copy_at(stack, stack.len() - 1)?;
    live.objects
        .set_variable(frame.this, frame.base as usize + k as usize, v);
    frame.at += 1;
    Ok(Next::Again)
}
