//! What efuns see of their arguments.
ghost use Rattle.std.specs.Prelude.{◌≡◌, All, Bool, IfOk, drop, map};
ghost use Rattle.lp_values.specs.declared.id.ObjId.{ObjId};
ghost use Rattle.lp_cells.specs.Cells.{IsThere, Store};
ghost use Rattle.lp_ops.specs.Operands.{opened, operand};
ghost use Rattle.lp_meaning.specs.EfunArguments.{arg, bad, int_in, items_in, text_in};

use lp_cells::cells::Cells;
use lp_instr::efun::Efun;
use lp_ops::effect::Effect;
use lp_values::error::RunError;
use lp_values::value::{Living, Value};
use std::alloc::{AllocError, Global};

/// The argument at a place, counted from 0, as read. One that is missing is 0.
#[tactic(auto, using(crate::proofs::ArgumentLemmas::argument_is, crate::proofs::ArgumentLemmas::missing_is, crate::proofs::ThereLemmas::get_there))]
pub fn argument<L: Living>(args: &[Value], i: usize, live: &L) -> Result<Value, AllocError>
    ensures value { (cells : Store) → IfOk result (λ v. opened (L.live live.now) cells v ≡ arg (map (operand (L.live live.now) cells) args.now) i) }
    ensures there { (cells : Store) → All (IsThere cells) args.now → IfOk result (IsThere cells) }
{
    match args.get(i) {
        Some(v) => v.copy_as_read(live),
        None => Ok(Value::Int(0)),
    }
}

/// The arguments behind the first.
pub fn rest(args: &[Value]) -> &[Value]
    ensures value { result.now ≡ drop 1 args.now }
    ensures there { (cells : Store) → All (IsThere cells) args.now → All (IsThere cells) result.now }
{
    match args {
        [] => &[],
        [_, rest @ ..] => rest,
    }
}

/// The integer that a value is, or 0.
pub fn int_in(v: &Value) -> i64
    ensures { (live : ObjId → Bool) (cells : Store) → result ≡ int_in (opened live cells v.now) }
{
    match v {
        Value::Int(n) => *n,
        _ => 0,
    }
}

/// The text that a value is, or the empty one.
pub fn text_in(v: &Value) -> &[char]
    ensures { (live : ObjId → Bool) (cells : Store) → result.now ≡ text_in (opened live cells v.now) }
{
    match v {
        Value::Str(s) => s.as_slice(),
        _ => &[],
    }
}

/// The items of the array that a value is, or none.
pub fn items_in<'a>(v: &Value, cells: &'a Cells) -> &'a [Value]
    requires { IsThere cells.now v.now }
    ensures { (live : ObjId → Bool) → result.now ≡ items_in (opened live cells.now v.now) }
{
    match v {
        Value::Arr(c) => cells.items(*c),
        _ => &[],
    }
}

/// A refusal of an argument of an efun. Arguments count from 1.
#[tactic(auto, using(crate::proofs::ArgumentLemmas::name_chars))]
pub fn bad(alloc: Global, efun: Efun, number: u64) -> Result<Effect, AllocError>
    ensures { IfOk result (λ e. e ≡ bad efun number) }
{
    Ok(Effect::Fault(RunError::bad_arg(alloc, number, efun.name())?))
}
