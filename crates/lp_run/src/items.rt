//! Items of arrays and code points of texts, on the stack.
ghost use Rattle.std.specs.Prelude.{◌≡◌, ◌++◌, ◌∷◌, [], ◌<◌, ◌≤◌, All, Bool, IfOk, IfSome, List, Some, false, length, slice_get};
ghost use Rattle.lp_cells.specs.Cells.{IsClosed, IsThere};
ghost use Rattle.lp_ops.specs.Operands.{operand};
ghost use Rattle.lp_ops.specs.Operators as operators;
ghost use Rattle.lp_ops.specs.declared.effect.Effect.{Effect};
ghost use Rattle.lp_step.specs.Steps.{Brings};
ghost use Rattle.lp_values.specs.declared.id.ObjId.{ObjId};
ghost use Rattle.lp_values.specs.declared.value.Value.{Value as V};

use lp_cells::cells::Cells;
use lp_step::fault::StepFault;
use lp_step::stack::{pop, write_at};
use lp_values::value::Value;

/// Brings the second value from the top to the top.
#[inline(always)]
pub(crate) fn bring_second(stack: &mut Vec<Value>)
    requires { 2 ≤ length stack.old.items }
    ensures { Brings 2 stack.old.items stack.new.items }
{
    let n = stack.len();
    stack.swap(n - 2, n - 1);
}

/// Brings the third value from the top to the top.
#[inline(always)]
pub(crate) fn bring_third(stack: &mut Vec<Value>)
    requires { 3 ≤ length stack.old.items }
    ensures { Brings 3 stack.old.items stack.new.items }
{
    let n = stack.len();
    stack.swap(n - 3, n - 2);
    stack.swap(n - 2, n - 1);
}

/// The value at a place.
#[inline(always)]
pub(crate) fn value_at(stack: &Vec<Value>, i: usize) -> &Value
    requires { i < length stack.now.items }
    ensures { slice_get stack.now.items i ≡ Some result.now }
{
    &stack[i]
}

/// The item at an index, if it is there.
#[inline(always)]
fn item(items: &[Value], n: i64) -> Result<Option<Value>, StepFault>
    ensures { IfOk result (λ o. IfSome o (λ v. operators.at_place items.now n ≡ Some v)) }
{
    if n < 0 || items.len() <= n as usize {
        return Ok(None);
    }
    Ok(Some(items[n as usize].copy()?))
}

/// The code point at an index, if it is there.
#[inline(always)]
fn point(points: &[char], n: i64) -> Option<Value>
    ensures { IfSome result (λ v. operators.as_point (operators.at_place points.now n) ≡ Some v) }
{
    if n < 0 || points.len() <= n as usize {
        return None;
    }
    Some(Value::Int(points[n as usize] as i64))
}

/// What an array or a text gives at an index from the front, if it is there.
#[inline(always)]
pub(crate) fn indexed(x: &Value, i: &Value, cells: &Cells) -> Result<Option<Value>, StepFault>
    requires { IsThere cells.now x.now }
    ensures value { IfOk result (λ o. IfSome o (λ v. (live : ObjId → Bool) → operators.index live false (operand live cells.now x.now) (operand live cells.now i.now) ≡ Effect.Gives v)) }
    ensures there { IsClosed cells.now → IfOk result (λ o. IfSome o (IsThere cells.now)) }
{
    match (x, i) {
        (Value::Arr(c), Value::Int(n)) => item(cells.items(*c), *n),
        (Value::Str(s), Value::Int(n)) => Ok(point(s.as_slice(), *n)),
        _ => Ok(None),
    }
}

/// Puts a value in the place of the two topmost ones.
#[inline(always)]
pub(crate) fn put_for_two(stack: &mut Vec<Value>, v: Value)
    requires { 2 ≤ length stack.old.items }
    ensures { (rest : List V) (x y : V) → stack.old.items ≡ (rest ++ x ∷ []) ++ y ∷ [] → stack.new.items ≡ rest ++ v ∷ [] }
{
    let _y = pop(stack);
    let i = stack.len() - 1;
    write_at(stack, i, v);
}
