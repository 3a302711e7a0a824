//! The stack, the catches and the budget.
ghost use Rattle.std.specs.Prelude.{◌≡◌, ◌+◌, ◌<◌, ◌≤◌, ◌++◌, ◌∷◌, [], OnOk, IfOk, Some, slice_get, slice_set, length, List};
ghost use Rattle.lp_values.specs.declared.value.Value.{Value as V};
ghost use Rattle.lp_values.specs.Read.{is_zero};
ghost use Rattle.lp_world.specs.Rows.{live_in};
ghost use Rattle.lp_step.specs.Steps.{Pays};

use crate::fault::StepFault;
use lp_values::value::{Value, is_zero};
use lp_world::frame::Catch;
use lp_world::objects::ObjectTable;

/// Puts a value on top.
#[inline(always)]
pub fn push(stack: &mut Vec<Value>, v: Value) -> Result<(), StepFault>
    ensures { OnOk result (stack.new.items ≡ stack.old.items ++ v ∷ []) }
{
    stack.push(v)?;
    Ok(())
}

/// Takes the topmost value.
#[inline(always)]
pub fn pop(stack: &mut Vec<Value>) -> Value
    requires { 1 ≤ length stack.old.items }
    ensures { stack.old.items ≡ stack.new.items ++ result ∷ [] }
{
    stack.pop().unwrap()
}

/// A copy of the value at a place.
#[inline(always)]
pub fn copy_at(stack: &Vec<Value>, i: usize) -> Result<Value, StepFault>
    requires { i < length stack.now.items }
    ensures { IfOk result (λ v. slice_get stack.now.items i ≡ Some v) }
{
    Ok(stack[i].copy()?)
}

/// Writes the value at a place.
#[inline(always)]
pub fn write_at(stack: &mut Vec<Value>, i: usize, v: Value)
    requires { i < length stack.old.items }
    ensures { stack.new.items ≡ slice_set stack.old.items i v }
{
    stack[i] = v;
}

/// Whether the topmost value reads as 0.
#[inline(always)]
pub fn is_top_zero(stack: &Vec<Value>, objects: &ObjectTable) -> bool
    requires { 1 ≤ length stack.now.items }
    ensures { (rest : List V) (v : V) → stack.now.items ≡ rest ++ v ∷ [] → result ≡ is_zero (live_in objects.now) v }
{
    is_zero(&stack[stack.len() - 1], objects)
}

/// Adds an innermost catch.
#[inline(always)]
pub fn push_catch(catches: &mut Vec<Catch>, c: Catch) -> Result<(), StepFault>
    ensures { OnOk result (catches.new.items ≡ catches.old.items ++ c ∷ []) }
{
    catches.push(c)?;
    Ok(())
}

/// Takes the innermost catch.
#[inline(always)]
pub fn pop_catch(catches: &mut Vec<Catch>) -> Catch
    requires { 1 ≤ length catches.old.items }
    ensures { catches.old.items ≡ catches.new.items ++ result ∷ [] }
{
    catches.pop().unwrap()
}

/// Pays, or tells that the budget is spent: then nothing is left of it.
#[inline(always)]
pub fn pay(budget: &mut u64, n: u64) -> bool
    ensures { Pays n budget.old result budget.new }
{
    if *budget < n {
        *budget = 0;
        return false;
    }
    *budget -= n;
    true
}

/// Pays a price that may be above 64 bits, or tells that the budget is spent: then nothing is left of it.
#[inline(always)]
pub fn pay_wide(budget: &mut u64, n: u128) -> bool
    ensures { Pays n budget.old result budget.new }
{
    if (*budget as u128) < n {
        *budget = 0;
        return false;
    }
    *budget -= n as u64;
    true
}
