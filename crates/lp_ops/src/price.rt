//! What operators cost. The machine pays: first what is due before an operator acts, then what its result is due.
ghost use Rattle.std.specs.Prelude.{◌≡◌, ◌<◌, ◌≤◌, ◌*◌, ◌^◌, All, length};
ghost use Rattle.lp_cells.specs.Cells.{IsThere, Store};
ghost use Rattle.lp_ops.specs.Effects.{Yields};
ghost use Rattle.lp_ops.specs.Operands.{operand, size_of};
ghost use Rattle.lp_ops.specs.Prices.{binary_after, binary_before, binary_has_share, has_share, literal_after, literal_before, price_after, price_before, range_after, range_before, total_size};
ghost use Rattle.lp_ops.specs.declared.effect.Effect.{Effect};

use crate::operation::Operation;
use lp_cells::cells::Cells;
use lp_tree::operator::BinOp;
use lp_values::value::{Living, Value, as_read};

/// How much of a length is paid: one of so many.
const SHARE: u64 = 16;

/// Whether a binary operator pays for the lengths of its operands and its result.
fn binary_has_share(op: BinOp) -> bool
    ensures { result ≡ binary_has_share op }
{
    match op {
        BinOp::Add => true,
        BinOp::Sub => true,
        BinOp::And => true,
        _ => false,
    }
}

/// Whether an operation does.
fn has_share(op: Operation) -> bool
    ensures { result ≡ has_share op }
{
    match op {
        Operation::Binary(op) => binary_has_share(op),
        Operation::Range => true,
        Operation::Literal => true,
        _ => false,
    }
}

/// What an operation costs before it acts, where its operands that are texts, arrays and mappings
/// have this total length. Takes no memory.
pub fn price_before(op: Operation, total: u64) -> u64
    ensures { result ≡ price_before op total }
{
    if has_share(op) {
        return 1 + total / SHARE;
    }
    1
}

/// What a result of this length costs after the operation. Takes no memory.
pub fn price_after(op: Operation, length: u64) -> u64
    ensures { result ≡ price_after op length }
{
    if has_share(op) {
        return length / SHARE;
    }
    0
}

/// The length of a text, an array or a mapping, as read, or 0. Takes no memory.
pub fn size<L: Living>(v: &Value, cells: &Cells, live: &L) -> u64
    requires { IsThere cells.now v.now }
    ensures value { result ≡ size_of (operand (L.live live.now) cells.now v.now) }
    ensures small { result < 2 ^ 63 }
{
    match as_read(v, live) {
        Some(Value::Str(s)) => s.as_slice().len() as u64,
        Some(Value::Arr(c)) => cells.items(*c).len() as u64,
        Some(Value::Map(c)) => cells.pairs(*c).count_there(live) as u64,
        _ => 0,
    }
}

/// What a binary operator costs before it acts. Takes no memory.
pub fn binary_before<L: Living>(op: BinOp, a: &Value, b: &Value, cells: &Cells, live: &L) -> u64
    requires left { IsThere cells.now a.now }
    requires right { IsThere cells.now b.now }
    ensures { result ≡ binary_before op (operand (L.live live.now) cells.now a.now) (operand (L.live live.now) cells.now b.now) }
{
    // Lengths are looked at only where they are paid for: the length of a mapping may take a walk.
    if binary_has_share(op) {
        return price_before(
            Operation::Binary(op),
            size(a, cells, live) + size(b, cells, live),
        );
    }
    1
}

/// What its result costs after it acted. Takes no memory.
pub fn binary_after<L: Living>(op: BinOp, v: &Value, cells: &Cells, live: &L) -> u64
    requires { IsThere cells.now v.now }
    ensures { (e : Effect) (old : Store) → Yields e old cells.now v.now → result ≡ binary_after (L.live live.now) op old e }
{
    if binary_has_share(op) {
        return price_after(Operation::Binary(op), size(v, cells, live));
    }
    0
}

/// What a range of a value from one end to another costs before it acts: the lengths of all three count, also where an end that
/// has a length is none. Takes no memory.
pub fn range_before<L: Living>(x: &Value, a: &Value, b: &Value, cells: &Cells, live: &L) -> u128
    requires value { IsThere cells.now x.now }
    requires first { IsThere cells.now a.now }
    requires last { IsThere cells.now b.now }
    ensures { result ≡ range_before (operand (L.live live.now) cells.now x.now) (operand (L.live live.now) cells.now a.now) (operand (L.live live.now) cells.now b.now) }
{
    let value = size(x, cells, live) as u128;
    let first = size(a, cells, live) as u128;
    let last = size(b, cells, live) as u128;
    1 + (value + first + last) / SHARE as u128
}

/// What its result costs after it acted. Takes no memory.
pub fn range_after<L: Living>(v: &Value, cells: &Cells, live: &L) -> u64
    requires { IsThere cells.now v.now }
    ensures { (e : Effect) (old : Store) → Yields e old cells.now v.now → result ≡ range_after (L.live live.now) old e }
{
    price_after(Operation::Range, size(v, cells, live))
}

/// What an array or a mapping of these parts costs before it is made. Takes no memory.
pub fn literal_before<L: Living>(parts: &[Value], cells: &Cells, live: &L) -> u128
    requires { All (IsThere cells.now) parts.now }
    ensures { result ≡ literal_before (L.live live.now) cells.now parts.now }
{
    1 + total_size(parts, cells, live) / SHARE as u128
}

/// What it costs after it was made. Takes no memory.
pub fn literal_after<L: Living>(v: &Value, cells: &Cells, live: &L) -> u64
    requires { IsThere cells.now v.now }
    ensures { (e : Effect) (old : Store) → Yields e old cells.now v.now → result ≡ literal_after (L.live live.now) old e }
{
    price_after(Operation::Literal, size(v, cells, live))
}

/// The lengths of all parts of a literal together: each is below 2^63, and so are their number.
fn total_size<L: Living>(parts: &[Value], cells: &Cells, live: &L) -> u128
    requires { All (IsThere cells.now) parts.now }
    ensures value { result ≡ total_size (L.live live.now) cells.now parts.now }
    ensures small { result ≤ 2 ^ 63 * length parts.now }
{
    let mut total = 0;
    for v in parts {
        total += size(v, cells, live) as u128;
    }
    total
}
