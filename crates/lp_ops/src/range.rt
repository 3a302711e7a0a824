//! Ranges of arrays and texts.
ghost use Rattle.std.specs.Prelude.{◌≡◌, ◌+ℤ◌, IfOk, length, min, pos};
ghost use Rattle.lp_cells.specs.Cells.{IsClosed, IsThere, KeepsThere};
ghost use Rattle.lp_ops.specs.Effects.{Meets, within};
ghost use Rattle.lp_ops.specs.Operands.{opened, operand};
ghost use Rattle.lp_ops.specs.Operators.{between, first_place, from_zero, last_place, range};

use crate::effect::{Effect, array, carry_out, from_text, refused};
use crate::end::End;
use crate::fault::OpFault;
use crate::list::copies;
use lp_cells::cells::Cells;
use lp_text::items::text_of;
use lp_values::error::ErrorKind;
use lp_values::value::{Living, Value};
use std::alloc::{AllocError, Global};

/// The items of `a` whose place is at least `from` and at most `to`.
pub fn range<L: Living>(
    alloc: Global,
    a: &Value,
    from: End,
    to: End,
    cells: &mut Cells,
    live: &L,
) -> Result<Value, OpFault>
    requires { IsThere cells.old a.now }
    ensures value { Meets (range (operand (L.live live.now) cells.old a.now) from to) cells.old cells.new result }
    ensures stay { KeepsThere cells.old cells.new }
    ensures closed { IsClosed cells.old → IsClosed cells.new × IfOk result (IsThere cells.new) }
{
    let a = a.copy_as_read(live)?;
    let effect = part_of(alloc, &a, from, to, cells, live)?;
    carry_out(alloc, effect, cells)
}

/// What a range does with a value that was read, up to the limits of length.
fn part_of<L: Living>(
    alloc: Global,
    a: &Value,
    from: End,
    to: End,
    cells: &Cells,
    _live: &L,
) -> Result<Effect, AllocError>
    requires { IsThere cells.now a.now }
    ensures { IfOk result (λ e. within e ≡ range (opened (L.live _live.now) cells.now a.now) from to) }
{
    match a {
        Value::Arr(c) => Ok(array(copies(alloc, part(cells.items(*c), from, to))?)),
        Value::Str(s) => from_text(alloc, text_of(alloc, part(s.as_slice(), from, to))),
        _ => refused(alloc, ErrorKind::BadOperands),
    }
}

/// The part of a list from one end to the other.
fn part<T>(items: &[T], from: End, to: End) -> &[T]
    ensures { result.now ≡ between (first_place from (length items.now)) (last_place to (length items.now)) items.now }
{
    let first = start_of(from, items.len());
    let after = end_of(to, items.len());
    if after <= first {
        return &[];
    }
    &items[first..after]
}

/// The first place of a range, at most the length.
fn start_of(end: End, len: usize) -> usize
    ensures { result ≡ min (from_zero (first_place end len)) len }
{
    match end {
        End::Start(n) => {
            if n < 0 {
                return 0;
            }
            if len <= n as usize { len } else { n as usize }
        }
        End::Back(n) => {
            if n < 0 {
                return len;
            }
            if len <= n as usize {
                0
            } else {
                len - n as usize
            }
        }
        End::Open => 0,
    }
}

/// The place after the last of a range, at most the length.
fn end_of(end: End, len: usize) -> usize
    ensures { result ≡ min (from_zero (last_place end len +ℤ pos 1)) len }
{
    match end {
        End::Start(n) => {
            if n < 0 {
                return 0;
            }
            if len <= n as usize {
                len
            } else {
                n as usize + 1
            }
        }
        End::Back(n) => {
            if n <= 0 {
                return len;
            }
            if len < n as usize {
                0
            } else {
                len - n as usize + 1
            }
        }
        End::Open => len,
    }
}
