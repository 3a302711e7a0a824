//! Ends of functions: the caller goes on.
ghost use Rattle.std.specs.Prelude.{◌≡◌, ◌-◌, ◌≤◌, ◌++◌, ◌∷◌, [], IfOk, OnOk, take};
ghost use Rattle.lp_cells.specs.Cells.{IsThere};
ghost use Rattle.lp_step.specs.Steps.{IsFit};
ghost use Rattle.lp_frames.specs.Calls.{CallsPart, WaitsThere};
ghost use Rattle.lp_frames.specs.Returns.{Cuts, Returns, RunsOn, StaysOf, Unwinds, UnwindsOn};

use lp_run::catches::catch_value;
use lp_step::fault::StepFault;
use lp_step::stack::push;
use lp_values::value::Value;
use lp_world::frame::Frame;

/// Takes all that a function which ended has on the stack, and so many values below it: what its call took besides the
/// arguments. The caller's operands are on top again. Takes no memory.
pub fn cut(stack: &mut Vec<Value>, frame: &Frame, under: u32)
    requires { under ≤ frame.now.bottom }
    ensures cuts { Cuts under stack.old.items frame.now stack.new.items }
    ensures items { stack.new.items ≡ take (frame.now.bottom - under) stack.old.items }
    ensures keeps { (live : _) → IsFit live stack.old.items → IsFit live stack.new.items }
{
    let height = frame.bottom as usize - under as usize;
    stack.truncate(height);
}

/// Leaves a function that ended with a value, which goes on top of the caller's operands.
pub fn leave(stack: &mut Vec<Value>, frame: &Frame, under: u32, v: Value) -> Result<(), StepFault>
    requires { under ≤ frame.now.bottom }
    ensures items { OnOk result (stack.new.items ≡ take (frame.now.bottom - under) stack.old.items ++ v ∷ []) }
    ensures returns { OnOk result (Returns under v stack.old.items frame.now stack.new.items) }
    ensures runs { OnOk result (RunsOn under v stack.old.items frame.now stack.new.items) }
    ensures keeps { OnOk result ((live : _) → IsThere live.cells v → IsFit live stack.old.items → IsFit live stack.new.items) }
{
    cut(stack, frame, under);
    push(stack, v)?;
    Ok(())
}

/// Leaves a function that ended with an error or a thrown value, of which a catch makes this value: the caller goes on at
/// its innermost catch. Tells whether it has one; where it has none, only the stack is cut, and the caller ends likewise.
pub fn unwind(
    stack: &mut Vec<Value>,
    frame: &Frame,
    under: u32,
    caller: &mut Frame,
    v: Value,
) -> Result<bool, StepFault>
    requires { under ≤ frame.now.bottom }
    ensures unwinds { IfOk result (λ is_caught. Unwinds is_caught under v stack.old.items frame.now stack.new.items caller.old caller.new) }
    ensures runs { IfOk result (λ is_caught. UnwindsOn is_caught under v stack.old.items frame.now stack.new.items caller.old caller.new) }
    ensures keeps { OnOk result ((live : _) → IsThere live.cells v → IsFit live stack.old.items → IsFit live stack.new.items) }
{
    cut(stack, frame, under);
    let is_caught = catch_value(stack, caller, v)?;
    Ok(is_caught)
}

/// Law: at a call, the arguments lie on top of the stack, below them what else the call takes, and below that the operands
/// that are left to the caller, whose frame waits with them.
pub fn law_calls_part()
    ensures { CallsPart }
{}

/// Law: while a function runs whose part of the stack lies above what its call took, its caller waits for it.
pub fn law_waits_there()
    ensures { WaitsThere }
{}

/// Law: what stays while a caller runs is still that of its row when it goes on.
pub fn law_stays_of()
    ensures { StaysOf }
{}
