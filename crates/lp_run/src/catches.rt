//! Catches.
ghost use Rattle.std.specs.Prelude.{◌≡◌, IfOk, false};
ghost use Rattle.lp_cells.specs.Cells.{IsThere};
ghost use Rattle.lp_step.specs.Steps.{IsFit};
ghost use Rattle.lp_run.specs.Catches.{Catches, CaughtRunsOn};

use lp_step::fault::StepFault;
use lp_step::stack::push;
use lp_values::value::Value;
use lp_world::frame::Frame;

/// Goes on at the innermost catch with what was caught: the stack is as high again as at the catch's begin, with the
/// caught value on top. Tells whether a catch was open; where none was, nothing changes.
pub fn catch_value(stack: &mut Vec<Value>, frame: &mut Frame, v: Value) -> Result<bool, StepFault>
    ensures table { IfOk result (λ is_caught. Catches is_caught v stack.old.items frame.old stack.new.items frame.new) }
    ensures keeps { IfOk result (λ is_caught. (live : _) → IsThere live.cells v → IsFit live stack.old.items → IsFit live stack.new.items) }
    ensures same { IfOk result (λ is_caught. is_caught ≡ false → stack.new.items ≡ stack.old.items) }
{
    match frame.catches.pop() {
        None => Ok(false),
        Some(c) => {
            stack.truncate(c.height as usize);
            push(stack, v)?;
            frame.at = c.to;
            Ok(true)
        }
    }
}

/// Law: where a stop gives a value and a catch was open, a function of a sound program that ran runs on at the catch.
pub fn law_caught_runs_on()
    ensures { CaughtRunsOn }
{}
