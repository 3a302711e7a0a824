//! Numbers, and lengths of values.
ghost use Rattle.std.specs.Prelude.{◌≡◌, ℕ, pos, neg_ℤ, nat_abs, int_le, length, Bool, FitsSigned, IfOk, ◌≤◌, ◌^◌, if◌then◌else◌};
ghost use Rattle.std.specs.Int.{w64};
ghost use Rattle.std.specs.Option.{SomeIff};
ghost use Rattle.lp_values.specs.declared.id.ObjId.{ObjId};
ghost use Rattle.lp_cells.specs.Cells.{IsThere, Store};
ghost use Rattle.lp_ops.specs.Integers.{int, whole};
ghost use Rattle.lp_ops.specs.Operands.{opened};
ghost use Rattle.lp_meaning.specs.ComputingEfuns.{leading_digits, leading_int, leading_number, sign_len, sizeof, to_int};
ghost use Rattle.lp_text.specs.Scans.{digits_number};

use crate::argument::bad;
use lp_cells::cells::Cells;
use lp_instr::efun::Efun;
use lp_ops::effect::Effect;
use lp_ops::int::{int, whole};
use lp_text::form::{point, rest_of};
use lp_values::value::{Living, Value};
use std::alloc::{AllocError, Global};

/// `min`: the smaller of two integers.
pub fn least(m: i64, n: i64) -> i64
    ensures { result ≡ (if int_le m n then m else n) }
{
    if m <= n { m } else { n }
}

/// `max`: the larger of two integers.
pub fn greatest(m: i64, n: i64) -> i64
    ensures { result ≡ (if int_le m n then n else m) }
{
    if m <= n { n } else { m }
}

/// `abs`: an integer without its sign, or the refusal where it does not fit 64 bits.
pub fn without_sign(alloc: Global, n: i64) -> Result<Effect, AllocError>
    ensures { IfOk result (λ e. e ≡ whole (pos (nat_abs n))) }
{
    if n < 0 {
        return whole(alloc, n.checked_neg());
    }
    Ok(int(n))
}

/// `strlen`: the length of a text.
pub fn text_len(s: &[char]) -> Effect
    ensures { result ≡ int (pos (length s.now)) }
{
    int(s.len() as i64)
}

/// `to_int`: an integer itself, the integer that a text begins with, and 0 of another value. A number that does not
/// fit 64 bits is refused.
pub fn to_int(alloc: Global, v: &Value) -> Result<Effect, AllocError>
    ensures { IfOk result (λ e. (live : ObjId → Bool) (cells : Store) → e ≡ to_int (opened live cells v.now)) }
{
    match v {
        Value::Int(n) => Ok(int(*n)),
        Value::Str(s) => whole(alloc, leading_int(s.as_slice())),
        _ => Ok(int(0)),
    }
}

/// How many code points the sign is that a text begins with: one or none.
fn sign_len(s: &[char]) -> usize
    ensures { result ≡ sign_len s.now }
{
    let first = point(s, 0);
    if first == '-' || first == '+' { 1 } else { 0 }
}

/// The integer that a text begins with, if it fits 64 bits.
fn leading_int(s: &[char]) -> Option<i64>
    ensures { SomeIff result (FitsSigned w64 (leading_int s.now)) (leading_int s.now) }
{
    let number = leading_number(s);
    if point(s, 0) == '-' {
        return negative(number);
    }
    positive(number)
}

/// The number behind the sign, if it is at most 2^63.
fn leading_number(s: &[char]) -> Option<u64>
    ensures { SomeIff result (leading_number s.now ≤ 2 ^ 63) (leading_number s.now) }
{
    leading_magnitude(rest_of(s, sign_len(s)))
}

/// The number that the digits write with which a text begins, if it is at most 2^63. Looks at no digit behind the one
/// with which the number passes that, so at 20 at most behind leading zeros.
fn leading_magnitude(s: &[char]) -> Option<u64>
    ensures { SomeIff result (digits_number (leading_digits s.now) ≤ 2 ^ 63) (digits_number (leading_digits s.now)) }
{
    let mut n: u64 = 0;
    for c in s {
        if !c.is_ascii_digit() {
            return Some(n);
        }
        if n > 922337203685477580 {
            return None;
        }
        n = n * 10 + (*c as u64).saturating_sub(48);
        if n > 9223372036854775808 {
            return None;
        }
    }
    Some(n)
}

/// A number as an integer, if it fits.
fn positive(number: Option<u64>) -> Option<i64>
    ensures { (n : ℕ) → SomeIff number (n ≤ 2 ^ 63) n → SomeIff result (FitsSigned w64 (pos n)) (pos n) }
{
    match number {
        Some(n) => if n < 9223372036854775808 {
            Some(n as i64)
        } else {
            None
        },
        None => None,
    }
}

/// A number with a minus sign, if it fits.
fn negative(number: Option<u64>) -> Option<i64>
    ensures { (n : ℕ) → SomeIff number (n ≤ 2 ^ 63) n → SomeIff result (FitsSigned w64 (neg_ℤ (pos n))) (neg_ℤ (pos n)) }
{
    match number {
        Some(n) => {
            if n < 9223372036854775808 {
                return Some(-(n as i64));
            }
            if n == 9223372036854775808 {
                Some(i64::MIN)
            } else {
                None
            }
        }
        None => None,
    }
}

/// `sizeof`: the length of a text, an array or a mapping as read; of 0 it is 0, and another value is refused. In
/// constant time for texts, for arrays and for mappings without objects among their keys.
pub fn sizeof<L: Living>(
    alloc: Global,
    v: &Value,
    cells: &Cells,
    live: &L,
) -> Result<Effect, AllocError>
    requires { IsThere cells.now v.now }
    ensures { IfOk result (λ e. e ≡ sizeof (opened (L.live live.now) cells.now v.now)) }
{
    match v {
        Value::Int(0) => Ok(int(0)),
        Value::Str(s) => Ok(text_len(s.as_slice())),
        Value::Arr(c) => Ok(int(cells.items(*c).len() as i64)),
        Value::Map(c) => Ok(int(cells.pairs(*c).count_there(live) as i64)),
        _ => bad(alloc, Efun::Sizeof, 1),
    }
}
