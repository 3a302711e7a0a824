//! Items by index.
ghost use Rattle.std.specs.Prelude.{◌≡◌, ◌<◌, ◌≤◌, ℕ, length, pos, MatchOption, IfOk, IsSome};
ghost use Rattle.lp_cells.specs.Cells.{IsClosed, IsThere, pairs_at, stored_pairs};
ghost use Rattle.lp_cells.specs.Mapping.{pairs_there};
ghost use Rattle.lp_ops.specs.Effects.{Answers};
ghost use Rattle.lp_ops.specs.Operands.{operand};
ghost use Rattle.lp_ops.specs.Operators.{as_point, at_place, index, or_bad_index, place_of, value_or_zero};

use crate::effect::fault;
use crate::fault::OpFault;
use lp_cells::cells::Cells;
use lp_values::error::ErrorKind;
use lp_values::id::CellId;
use lp_values::value::{Living, Value};
use std::alloc::{AllocError, Global};

/// The item of `a` at the index `i`, counted from the end where `from_end` says so.
pub fn index<L: Living>(
    alloc: Global,
    a: &Value,
    i: &Value,
    from_end: bool,
    cells: &Cells,
    live: &L,
) -> Result<Value, OpFault>
    requires { IsThere cells.now a.now }
    ensures value { Answers (index (L.live live.now) from_end (operand (L.live live.now) cells.now a.now) (operand (L.live live.now) cells.now i.now)) result }
    ensures there { IsClosed cells.now → IfOk result (IsThere cells.now) }
{
    let a = a.copy_as_read(live)?;
    let i = i.copy_as_read(live)?;
    match (&a, &i) {
        (Value::Arr(c), Value::Int(n)) => item(alloc, cells.items(*c), *n, from_end),
        (Value::Str(s), Value::Int(n)) => point(alloc, s.as_slice(), *n, from_end),
        (Value::Map(c), key) => {
            if from_end {
                return Err(fault(alloc, ErrorKind::BadOperands));
            }
            Ok(value_at(*c, key, cells, live)?)
        }
        _ => Err(fault(alloc, ErrorKind::BadOperands)),
    }
}

/// The place that an index means, if there is one below the length.
fn place(n: i64, len: usize, from_end: bool) -> Option<usize>
    ensures { MatchOption result ((i : ℕ) → place_of from_end n len ≡ pos i → len ≤ i) (λ i. (place_of from_end n len ≡ pos i) × (i < len)) }
{
    if from_end {
        if n <= 0 || len < n as usize {
            return None;
        }
        return Some(len - n as usize);
    }
    if n < 0 || len <= n as usize {
        return None;
    }
    Some(n as usize)
}

/// The item at an index.
fn item(alloc: Global, items: &[Value], n: i64, from_end: bool) -> Result<Value, OpFault>
    ensures { Answers (or_bad_index (at_place items.now (place_of from_end n (length items.now)))) result }
{
    match place(n, items.len(), from_end) {
        Some(i) => Ok(items[i].copy()?),
        None => Err(fault(alloc, ErrorKind::BadIndex)),
    }
}

/// The code point at an index.
fn point(alloc: Global, points: &[char], n: i64, from_end: bool) -> Result<Value, OpFault>
    ensures { Answers (or_bad_index (as_point (at_place points.now (place_of from_end n (length points.now))))) result }
{
    match place(n, points.len(), from_end) {
        Some(i) => Ok(Value::Int(points[i] as i64)),
        None => Err(fault(alloc, ErrorKind::BadIndex)),
    }
}

/// The value at a key of a mapping, or 0.
fn value_at<L: Living>(c: CellId, key: &Value, cells: &Cells, live: &L) -> Result<Value, AllocError>
    requires { IsSome (pairs_at cells.now c) }
    ensures { IfOk result (λ v. v ≡ value_or_zero (L.live live.now) (pairs_there (L.live live.now) (stored_pairs cells.now c)) key.now) }
{
    match cells.map_get(c, key, live) {
        Some(v) => v.copy(),
        None => Ok(Value::Int(0)),
    }
}
