//! Values that are laid on the stack, and taken from it.
ghost use Rattle.std.specs.Prelude.{◌≡◌, ◌-◌, ◌<◌, ◌≤◌, ◌++◌, ◌∷◌, [], OnOk, Some, drop, length, slice_get, take};
ghost use Rattle.lp_step.specs.Steps.{IsFit};

use lp_values::value::Value;
use std::alloc::AllocError;

/// Puts copies of the values from one place up to another one on top.
pub(crate) fn copy_up(stack: &mut Vec<Value>, from: usize, to: usize) -> Result<(), AllocError>
    requires order { from ≤ to }
    requires inside { to ≤ length stack.old.items }
    ensures { OnOk result (stack.new.items ≡ stack.old.items ++ take (to - from) (drop from stack.old.items)) }
{
    for i in from..to {
        let v = stack[i].copy()?;
        stack.push(v)?;
    }
    Ok(())
}

/// Puts copies of these values on top.
pub(crate) fn put_all(stack: &mut Vec<Value>, items: &[Value]) -> Result<(), AllocError>
    ensures { OnOk result (stack.new.items ≡ stack.old.items ++ items.now) }
{
    for v in items {
        stack.push(v.copy()?)?;
    }
    Ok(())
}

/// Puts a value at a place, and takes all above.
pub(crate) fn put_at(stack: &mut Vec<Value>, low: usize, v: Value) -> Result<(), AllocError>
    ensures { OnOk result (stack.new.items ≡ take low stack.old.items ++ v ∷ []) }
{
    stack.truncate(low);
    stack.push(v)?;
    Ok(())
}

/// Takes the value at a place, and all above.
pub(crate) fn take_at(stack: &mut Vec<Value>, low: usize) -> Value
    requires { low < length stack.old.items }
    ensures value { slice_get stack.old.items low ≡ Some result }
    ensures rest { stack.new.items ≡ take low stack.old.items }
{
    stack.truncate(low + 1);
    stack.pop().unwrap()
}

/// Takes all values from a place on.
pub(crate) fn cut(stack: &mut Vec<Value>, low: usize)
    ensures items { stack.new.items ≡ take low stack.old.items }
    ensures keeps { (live : _) → IsFit live stack.old.items → IsFit live stack.new.items }
{
    stack.truncate(low);
}

/// The values from a place on.
pub(crate) fn above(stack: &Vec<Value>, low: usize) -> &[Value]
    requires { low ≤ length stack.now.items }
    ensures { result.now ≡ drop low stack.now.items }
{
    &stack[low..]
}
