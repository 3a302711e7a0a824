//! Arguments of efuns, as read.
ghost use Rattle.std.specs.Prelude.{◌≡◌, All, Bool, IfOk, map};
ghost use Rattle.lp_values.specs.declared.id.ObjId.{ObjId};
ghost use Rattle.lp_cells.specs.Cells.{IsThere, Store};
ghost use Rattle.lp_ops.specs.Operands.{operand};
ghost use Rattle.lp_meaning.specs.EfunArguments.{int_arg, int_in, text_arg, text_in, value_arg};

use lp_values::text::Text;
use lp_values::value::Value;
use std::alloc::{AllocError, Global};

/// The integer that an argument is, or 0. Arguments count from 0.
pub fn int_at(args: &[Value], i: usize) -> i64
    ensures { (live : ObjId → Bool) (cells : Store) → result ≡ int_arg (map (operand live cells) args.now) i }
{
    match args.get(i) {
        Some(v) => int_of(v),
        None => 0,
    }
}

/// The integer that a value is, or 0.
fn int_of(v: &Value) -> i64
    ensures { (live : ObjId → Bool) (cells : Store) → result ≡ int_in (operand live cells v.now) }
{
    match v {
        Value::Int(n) => *n,
        _ => 0,
    }
}

/// The text that an argument is, or the empty one.
pub fn text_at(args: &[Value], i: usize) -> &[char]
    ensures { (live : ObjId → Bool) (cells : Store) → result.now ≡ text_arg (map (operand live cells) args.now) i }
{
    match args.get(i) {
        Some(v) => text_of(v),
        None => &[],
    }
}

/// The text that a value is, or the empty one.
fn text_of(v: &Value) -> &[char]
    ensures { (live : ObjId → Bool) (cells : Store) → result.now ≡ text_in (operand live cells v.now) }
{
    match v {
        Value::Str(s) => s.as_slice(),
        _ => &[],
    }
}

/// An argument as it was given, or 0.
pub(crate) fn value_at(args: &[Value], i: usize) -> Result<Value, AllocError>
    ensures value { IfOk result (λ v. v ≡ value_arg args.now i) }
    ensures there { (cells : Store) → All (IsThere cells) args.now → IfOk result (IsThere cells) }
{
    match args.get(i) {
        Some(v) => v.copy(),
        None => Ok(Value::Int(0)),
    }
}

/// The text that an argument is, or the empty one, in the same memory. Arguments count from 0.
pub fn text_shared(alloc: Global, args: &[Value], i: usize) -> Result<Text, AllocError>
    ensures { IfOk result (λ t. (live : ObjId → Bool) (cells : Store) → t ≡ text_arg (map (operand live cells) args.now) i) }
{
    match args.get(i) {
        Some(Value::Str(t)) => t.copy(),
        _ => Text::from_slice(alloc, &[]),
    }
}
