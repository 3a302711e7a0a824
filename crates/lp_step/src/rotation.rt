//! Values brought to the top.
ghost use Rattle.std.specs.Prelude.{◌+◌, ◌<◌, ◌≤◌, ◌^◌, IfOk, length};
ghost use Rattle.lp_step.specs.Steps.{Brings, Keeps, Performs};

use crate::fault::StepFault;
use crate::next::Next;
use crate::stack::push;
use lp_instr::instr::Instr;
use lp_values::value::Value;
use lp_world::frame::Frame;

/// Brings the n-th value from the top, which is the first, to the top.
fn bring(stack: &mut Vec<Value>, n: usize) -> Result<(), StepFault>
    requires some { 1 ≤ n }
    requires operands { n ≤ length stack.old.items }
    ensures { IfOk result (λ u. Brings n stack.old.items stack.new.items) }
{
    let place = stack.len() - n;
    let v = stack.remove(place);
    push(stack, v)
}

/// Brings the n-th value from the top to the top.
pub fn rotate(stack: &mut Vec<Value>, frame: &mut Frame, n: u32) -> Result<Next, StepFault>
    requires room { frame.old.at + 1 < 2 ^ 32 }
    requires some { 1 ≤ n }
    requires operands { n ≤ length stack.old.items }
    ensures table { IfOk result (λ d. (live : _) (budget : _) → Performs (Instr.Rotate n) live stack.old.items frame.old budget d live stack.new.items frame.new budget) }
    ensures keeps { IfOk result (λ d. (live : _) → Keeps live stack.old.items d live stack.new.items) }
{
    bring(stack, n as usize)?;
    frame.at += 1;
    Ok(Next::Again)
}
