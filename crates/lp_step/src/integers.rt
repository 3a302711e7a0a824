//! Operators on integers, in the place of their operands.
ghost use Rattle.std.specs.Prelude.{◌≡◌, ◌+◌, ◌+ℤ◌, ◌-◌, ◌-ℤ◌, ◌*ℤ◌, ◌<◌, ◌≤◌, ◌++◌, ◌∷◌, [], Bool, IfSome, List, Some, length, slice_get, slice_set};
ghost use Rattle.lp_language.specs.Operations.{step_effect};
ghost use Rattle.lp_ops.specs.Integers.{divided, int, remainder, truth, whole};
ghost use Rattle.lp_ops.specs.Operands.{Number};
ghost use Rattle.lp_ops.specs.Operators as operators;
ghost use Rattle.lp_step.specs.InPlace.{CountsInPlace, InPlace};
ghost use Rattle.lp_values.specs.declared.id.ObjId.{ObjId};
ghost use Rattle.lp_values.specs.declared.value.Value.{Value as V};

use crate::stack::{pop, write_at};
use lp_tree::operator::{BinOp, Step};
use lp_values::value::Value;

/// A sum, if 64 bits hold it.
#[inline(always)]
fn sum(m: i64, n: i64) -> Option<i64>
    ensures { IfSome result (λ k. whole (m +ℤ n) ≡ int k) }
{
    m.checked_add(n)
}

/// A difference, if 64 bits hold it.
#[inline(always)]
fn difference(m: i64, n: i64) -> Option<i64>
    ensures { IfSome result (λ k. whole (m -ℤ n) ≡ int k) }
{
    m.checked_sub(n)
}

/// A product, if 64 bits hold it.
#[inline(always)]
fn product(m: i64, n: i64) -> Option<i64>
    ensures { IfSome result (λ k. whole (m *ℤ n) ≡ int k) }
{
    m.checked_mul(n)
}

/// A quotient, rounded towards 0. `None` for 0, and where 64 bits do not hold it.
#[inline(always)]
fn quotient(m: i64, n: i64) -> Option<i64>
    ensures { IfSome result (λ k. divided m n ≡ int k) }
{
    if n == 0 {
        return None;
    }
    m.checked_div(n)
}

/// What a division leaves. `None` for 0 and for -1, by which the machine does not divide.
#[inline(always)]
fn rest(m: i64, n: i64) -> Option<i64>
    ensures { IfSome result (λ k. remainder m n ≡ int k) }
{
    if n == 0 || n == -1 {
        return None;
    }
    Some(m % n)
}

/// 1 for true, 0 for false.
#[inline(always)]
fn truth(b: bool) -> Option<i64>
    ensures { IfSome result (λ k. truth b ≡ int k) }
{
    Some(if b { 1 } else { 0 })
}

/// What a binary operator gives for two integers. `None` where that is an error, and for shifts.
#[inline(always)]
fn of_integers(op: BinOp, m: i64, n: i64) -> Option<i64>
    ensures { (live : ObjId → Bool) → IfSome result (λ k. operators.result_of live op (Number m) (Number n) ≡ int k) }
{
    match op {
        BinOp::Add => sum(m, n),
        BinOp::Sub => difference(m, n),
        BinOp::Mul => product(m, n),
        BinOp::Div => quotient(m, n),
        BinOp::Rem => rest(m, n),
        BinOp::And => Some(m & n),
        BinOp::Or => Some(m | n),
        BinOp::Xor => Some(m ^ n),
        BinOp::Shl => None,
        BinOp::Shr => None,
        BinOp::Lt => truth(m < n),
        BinOp::Le => truth(m <= n),
        BinOp::Gt => truth(n < m),
        BinOp::Ge => truth(n <= m),
        BinOp::Eq => truth(m == n),
        BinOp::Ne => truth(m != n),
    }
}

/// One more or one less. `None` where 64 bits do not hold it.
#[inline(always)]
fn next_integer(step: Step, n: i64) -> Option<i64>
    ensures { IfSome result (λ k. step_effect step (Number n) ≡ int k) }
{
    match step {
        Step::Up => sum(n, 1),
        Step::Down => difference(n, 1),
    }
}

/// The integer at a place, if one is there.
#[inline(always)]
fn integer_at(stack: &Vec<Value>, i: usize) -> Option<i64>
    requires { i < length stack.now.items }
    ensures { IfSome result (λ n. slice_get stack.now.items i ≡ Some (Value.Int n)) }
{
    match stack[i] {
        Value::Int(n) => Some(n),
        _ => None,
    }
}

/// Writes an integer in the place of the two topmost values.
#[inline(always)]
fn put_for_two(stack: &mut Vec<Value>, k: i64)
    requires { 2 ≤ length stack.old.items }
    ensures { (left : List V) (right : V) → stack.old.items ≡ left ++ right ∷ [] → stack.new.items ≡ slice_set left (length left - 1) (Value.Int k) }
{
    let _y = pop(stack);
    let i = stack.len() - 1;
    write_at(stack, i, Value::Int(k));
}

/// A binary operator on two integers: its price is 1, and its result takes their place. Where other values lie there,
/// the result is an error or nothing is left of the budget, nothing changes and it says so.
#[inline(always)]
pub fn binary_in_place(stack: &mut Vec<Value>, budget: &mut u64, op: BinOp) -> bool
    requires { 2 ≤ length stack.old.items }
    ensures { InPlace op stack.old.items stack.new.items budget.old result budget.new }
{
    let below = stack.len() - 2;
    let Some(m) = integer_at(stack, below) else {
        return false;
    };
    let Some(n) = integer_at(stack, below + 1) else {
        return false;
    };
    let Some(k) = of_integers(op, m, n) else {
        return false;
    };
    if *budget == 0 {
        return false;
    }
    *budget -= 1;
    put_for_two(stack, k);
    true
}

/// One more or one less of an integer likewise.
#[inline(always)]
pub fn count_in_place(stack: &mut Vec<Value>, budget: &mut u64, step: Step) -> bool
    requires { 1 ≤ length stack.old.items }
    ensures { CountsInPlace step stack.old.items stack.new.items budget.old result budget.new }
{
    let i = stack.len() - 1;
    let Some(n) = integer_at(stack, i) else {
        return false;
    };
    let Some(k) = next_integer(step, n) else {
        return false;
    };
    if *budget == 0 {
        return false;
    }
    *budget -= 1;
    write_at(stack, i, Value::Int(k));
    true
}
