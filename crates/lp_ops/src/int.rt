//! Operators on integers.
ghost use Rattle.std.specs.Prelude.{◌≡◌, ◌≤ℤ◌, ℤ, pos, FitsSigned, IfOk};
ghost use Rattle.std.specs.Int.{int_min, w64};
ghost use Rattle.std.specs.Option.{SomeIff};
ghost use Rattle.lp_ops.specs.Effects.{refused};
ghost use Rattle.lp_ops.specs.Integers.{divided, int, remainder, shifted_left, shifted_right, truth, whole};

use crate::effect::{Effect, refused};
use lp_values::error::ErrorKind;
use lp_values::value::Value;
use std::alloc::{AllocError, Global};

/// An integer.
pub fn int(n: i64) -> Effect
    ensures { result ≡ int n }
{
    Effect::Gives(Value::Int(n))
}

/// 1 for true, 0 for false.
pub fn truth(b: bool) -> Effect
    ensures { result ≡ truth b }
{
    int(if b { 1 } else { 0 })
}

/// An integer, unless it does not fit 64 bits.
pub fn whole(alloc: Global, answer: Option<i64>) -> Result<Effect, AllocError>
    ensures { IfOk result (λ e. (z : ℤ) → SomeIff answer (FitsSigned w64 z) z → e ≡ whole z) }
{
    match answer {
        Some(n) => Ok(int(n)),
        None => refused(alloc, ErrorKind::Overflow),
    }
}

/// The quotient, rounded towards 0.
pub fn divided(alloc: Global, m: i64, n: i64) -> Result<Effect, AllocError>
    ensures { IfOk result (λ e. e ≡ divided m n) }
{
    if n == 0 {
        return refused(alloc, ErrorKind::ZeroDivisor);
    }
    whole(alloc, m.checked_div(n))
}

/// The remainder, with the sign of the left.
pub fn remainder(alloc: Global, m: i64, n: i64) -> Result<Effect, AllocError>
    ensures { IfOk result (λ e. e ≡ remainder m n) }
{
    if n == 0 {
        return refused(alloc, ErrorKind::ZeroDivisor);
    }
    if n == -1 {
        return Ok(int(0));
    }
    Ok(int(m % n))
}

/// How far to shift: the number, at most 64.
fn distance(n: i64) -> u32
    requires { pos 0 ≤ℤ n }
    ensures { pos result ≡ int_min n (pos 64) }
{
    if n < 64 { n as u32 } else { 64 }
}

/// A shift to the left. Bits past the end are lost.
pub fn shifted_left(alloc: Global, m: i64, n: i64) -> Result<Effect, AllocError>
    ensures { IfOk result (λ e. e ≡ shifted_left m n) }
{
    if n < 0 {
        return refused(alloc, ErrorKind::BadOperands);
    }
    Ok(int(m.unbounded_shl(distance(n))))
}

/// A shift to the right, which keeps the sign.
pub fn shifted_right(alloc: Global, m: i64, n: i64) -> Result<Effect, AllocError>
    ensures { IfOk result (λ e. e ≡ shifted_right m n) }
{
    if n < 0 {
        return refused(alloc, ErrorKind::BadOperands);
    }
    Ok(int(m.unbounded_shr(distance(n))))
}
