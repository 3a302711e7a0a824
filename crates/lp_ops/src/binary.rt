//! The binary operators.
ghost use Rattle.std.specs.Prelude.{◌≡◌, ◌++◌, ◌*ℤ◌, IfOk, IsSome, int_le, int_lt};
ghost use Rattle.std.specs.Int.{int_bit_or, int_bit_xor, w64};
ghost use Rattle.lp_cells.specs.Cells.{IsClosed, IsThere, KeepsThere, pairs_at, stored_pairs};
ghost use Rattle.lp_cells.specs.Mapping.{pairs_of, pairs_there};
ghost use Rattle.lp_ops.specs.Effects.{Meets, within};
ghost use Rattle.lp_ops.specs.Integers.{divided, int, remainder, shifted_left, shifted_right, whole};
ghost use Rattle.lp_ops.specs.Operands.{opened, operand};
ghost use Rattle.lp_ops.specs.Operators.{added, anded, binary, compared, on_integers, pairs_without, subtracted, text_le, text_lt};

use crate::effect::{Effect, array, carry_out, from_text, mapping, refused};
use crate::fault::OpFault;
use crate::int::{divided, int, remainder, shifted_left, shifted_right, truth, whole};
use crate::list::{items_common, items_joined, items_without, pairs_joined, pairs_without};
use lp_cells::cells::Cells;
use lp_cells::content::Content;
use lp_text::items::join;
use lp_tree::operator::BinOp;
use lp_values::decimal::signed_spelling;
use lp_values::error::ErrorKind;
use lp_values::id::CellId;
use lp_values::limits::MAX_ITEMS;
use lp_values::value::{Living, Value};
use std::alloc::{AllocError, Global};

/// The value of a binary operator. A result in a new cell is made; on a refusal nothing changes.
pub fn binary<L: Living>(
    alloc: Global,
    op: BinOp,
    a: &Value,
    b: &Value,
    cells: &mut Cells,
    live: &L,
) -> Result<Value, OpFault>
    requires left { IsThere cells.old a.now }
    requires right { IsThere cells.old b.now }
    ensures value { Meets (binary (L.live live.now) op (operand (L.live live.now) cells.old a.now) (operand (L.live live.now) cells.old b.now)) cells.old cells.new result }
    ensures stay { KeepsThere cells.old cells.new }
    ensures closed { IsClosed cells.old → IsClosed cells.new × IfOk result (IsThere cells.new) }
{
    let a = a.copy_as_read(live)?;
    let b = b.copy_as_read(live)?;
    let effect = effect_of(alloc, op, &a, &b, cells, live)?;
    carry_out(alloc, effect, cells)
}

/// What a binary operator does with values that were read, up to the limits of length.
fn effect_of<L: Living>(
    alloc: Global,
    op: BinOp,
    a: &Value,
    b: &Value,
    cells: &Cells,
    live: &L,
) -> Result<Effect, AllocError>
    requires left { IsThere cells.now a.now }
    requires right { IsThere cells.now b.now }
    ensures { IfOk result (λ e. within e ≡ binary (L.live live.now) op (opened (L.live live.now) cells.now a.now) (opened (L.live live.now) cells.now b.now)) }
{
    match op {
        BinOp::Add => added(alloc, a, b, cells, live),
        BinOp::Sub => subtracted(alloc, a, b, cells, live),
        BinOp::Mul => multiplied(alloc, a, b, cells, live),
        BinOp::Div => quotient(alloc, a, b, cells, live),
        BinOp::Rem => rest(alloc, a, b, cells, live),
        BinOp::And => anded(alloc, a, b, cells, live),
        BinOp::Or => ored(alloc, a, b, cells, live),
        BinOp::Xor => xored(alloc, a, b, cells, live),
        BinOp::Shl => left_shift(alloc, a, b, cells, live),
        BinOp::Shr => right_shift(alloc, a, b, cells, live),
        BinOp::Lt => is_less(alloc, a, b, cells, live),
        BinOp::Le => is_at_most(alloc, a, b, cells, live),
        BinOp::Gt => is_less(alloc, b, a, cells, live),
        BinOp::Ge => is_at_most(alloc, b, a, cells, live),
        BinOp::Eq => Ok(truth(*a == *b)),
        BinOp::Ne => Ok(truth(*a != *b)),
    }
}

/// `+`, up to the limits of length: what is too long is refused before it is built.
fn added<L: Living>(
    alloc: Global,
    a: &Value,
    b: &Value,
    cells: &Cells,
    live: &L,
) -> Result<Effect, AllocError>
    requires left { IsThere cells.now a.now }
    requires right { IsThere cells.now b.now }
    ensures { IfOk result (λ e. within e ≡ within (added (opened (L.live live.now) cells.now a.now) (opened (L.live live.now) cells.now b.now))) }
{
    match (a, b) {
        (Value::Int(m), Value::Int(n)) => whole(alloc, m.checked_add(*n)),
        (Value::Str(s), Value::Str(t)) => joined(alloc, s.as_slice(), t.as_slice()),
        (Value::Str(s), Value::Int(n)) => {
            let spelled = signed_spelling(alloc, *n)?;
            joined(alloc, s.as_slice(), spelled.as_slice())
        }
        (Value::Int(m), Value::Str(t)) => {
            let spelled = signed_spelling(alloc, *m)?;
            joined(alloc, spelled.as_slice(), t.as_slice())
        }
        (Value::Arr(c), Value::Arr(d)) => arrays_joined(alloc, cells.items(*c), cells.items(*d)),
        (Value::Map(c), Value::Map(d)) => {
            Ok(mapping(pairs_joined(alloc, cells.pairs(*c), cells.pairs(*d), live)?))
        }
        _ => refused(alloc, ErrorKind::BadOperands),
    }
}

/// One text and then another, or the refusal where they are too long together.
fn joined(alloc: Global, first: &[char], second: &[char]) -> Result<Effect, AllocError>
    ensures { IfOk result (λ e. within e ≡ within (Effect.Gives (Value.Str (first.now ++ second.now)))) }
{
    from_text(alloc, join(alloc, first, second))
}

/// The items of one array and then those of another, or the refusal where they are too many together.
fn arrays_joined(alloc: Global, first: &[Value], second: &[Value]) -> Result<Effect, AllocError>
    ensures { IfOk result (λ e. within e ≡ within (Effect.Makes (Content.Array (first.now ++ second.now)))) }
{
    if first.len() > MAX_ITEMS || second.len() > MAX_ITEMS - first.len() {
        return refused(alloc, ErrorKind::TooLong);
    }
    Ok(array(items_joined(alloc, first, second)?))
}

/// `-`
fn subtracted<L: Living>(
    alloc: Global,
    a: &Value,
    b: &Value,
    cells: &Cells,
    live: &L,
) -> Result<Effect, AllocError>
    requires left { IsThere cells.now a.now }
    requires right { IsThere cells.now b.now }
    ensures { IfOk result (λ e. e ≡ subtracted (L.live live.now) (opened (L.live live.now) cells.now a.now) (opened (L.live live.now) cells.now b.now)) }
{
    match (a, b) {
        (Value::Int(m), Value::Int(n)) => whole(alloc, m.checked_sub(*n)),
        (Value::Arr(c), Value::Arr(d)) => {
            Ok(array(items_without(alloc, cells.items(*c), cells.items(*d), live)?))
        }
        (Value::Map(c), Value::Map(d)) => { mapping_difference(alloc, *c, *d, cells, live) }
        _ => refused(alloc, ErrorKind::BadOperands),
    }
}

/// `&`
fn anded<L: Living>(
    alloc: Global,
    a: &Value,
    b: &Value,
    cells: &Cells,
    live: &L,
) -> Result<Effect, AllocError>
    requires left { IsThere cells.now a.now }
    requires right { IsThere cells.now b.now }
    ensures { IfOk result (λ e. e ≡ anded (L.live live.now) (opened (L.live live.now) cells.now a.now) (opened (L.live live.now) cells.now b.now)) }
{
    match (a, b) {
        (Value::Int(m), Value::Int(n)) => Ok(int(*m & *n)),
        (Value::Arr(c), Value::Arr(d)) => {
            Ok(array(items_common(alloc, cells.items(*c), cells.items(*d), live)?))
        }
        _ => refused(alloc, ErrorKind::BadOperands),
    }
}

/// `*`
fn multiplied<L: Living>(
    alloc: Global,
    a: &Value,
    b: &Value,
    cells: &Cells,
    live: &L,
) -> Result<Effect, AllocError>
    ensures { IfOk result (λ e. e ≡ on_integers (λ m n. whole (m *ℤ n)) (opened (L.live live.now) cells.now a.now) (opened (L.live live.now) cells.now b.now)) }
{
    match (a, b) {
        (Value::Int(m), Value::Int(n)) => whole(alloc, m.checked_mul(*n)),
        _ => refused(alloc, ErrorKind::BadOperands),
    }
}

/// `/`
fn quotient<L: Living>(
    alloc: Global,
    a: &Value,
    b: &Value,
    cells: &Cells,
    live: &L,
) -> Result<Effect, AllocError>
    ensures { IfOk result (λ e. e ≡ on_integers divided (opened (L.live live.now) cells.now a.now) (opened (L.live live.now) cells.now b.now)) }
{
    match (a, b) {
        (Value::Int(m), Value::Int(n)) => divided(alloc, *m, *n),
        _ => refused(alloc, ErrorKind::BadOperands),
    }
}

/// `%`
fn rest<L: Living>(
    alloc: Global,
    a: &Value,
    b: &Value,
    cells: &Cells,
    live: &L,
) -> Result<Effect, AllocError>
    ensures { IfOk result (λ e. e ≡ on_integers remainder (opened (L.live live.now) cells.now a.now) (opened (L.live live.now) cells.now b.now)) }
{
    match (a, b) {
        (Value::Int(m), Value::Int(n)) => remainder(alloc, *m, *n),
        _ => refused(alloc, ErrorKind::BadOperands),
    }
}

/// `|`
fn ored<L: Living>(
    alloc: Global,
    a: &Value,
    b: &Value,
    cells: &Cells,
    live: &L,
) -> Result<Effect, AllocError>
    ensures { IfOk result (λ e. e ≡ on_integers (λ m n. int (int_bit_or w64 m n)) (opened (L.live live.now) cells.now a.now) (opened (L.live live.now) cells.now b.now)) }
{
    match (a, b) {
        (Value::Int(m), Value::Int(n)) => Ok(int(*m | *n)),
        _ => refused(alloc, ErrorKind::BadOperands),
    }
}

/// `^`
fn xored<L: Living>(
    alloc: Global,
    a: &Value,
    b: &Value,
    cells: &Cells,
    live: &L,
) -> Result<Effect, AllocError>
    ensures { IfOk result (λ e. e ≡ on_integers (λ m n. int (int_bit_xor w64 m n)) (opened (L.live live.now) cells.now a.now) (opened (L.live live.now) cells.now b.now)) }
{
    match (a, b) {
        (Value::Int(m), Value::Int(n)) => Ok(int(*m ^ *n)),
        _ => refused(alloc, ErrorKind::BadOperands),
    }
}

/// `<<`
fn left_shift<L: Living>(
    alloc: Global,
    a: &Value,
    b: &Value,
    cells: &Cells,
    live: &L,
) -> Result<Effect, AllocError>
    ensures { IfOk result (λ e. e ≡ on_integers shifted_left (opened (L.live live.now) cells.now a.now) (opened (L.live live.now) cells.now b.now)) }
{
    match (a, b) {
        (Value::Int(m), Value::Int(n)) => shifted_left(alloc, *m, *n),
        _ => refused(alloc, ErrorKind::BadOperands),
    }
}

/// `>>`
fn right_shift<L: Living>(
    alloc: Global,
    a: &Value,
    b: &Value,
    cells: &Cells,
    live: &L,
) -> Result<Effect, AllocError>
    ensures { IfOk result (λ e. e ≡ on_integers shifted_right (opened (L.live live.now) cells.now a.now) (opened (L.live live.now) cells.now b.now)) }
{
    match (a, b) {
        (Value::Int(m), Value::Int(n)) => shifted_right(alloc, *m, *n),
        _ => refused(alloc, ErrorKind::BadOperands),
    }
}

/// `<`
fn is_less<L: Living>(
    alloc: Global,
    a: &Value,
    b: &Value,
    cells: &Cells,
    live: &L,
) -> Result<Effect, AllocError>
    ensures { IfOk result (λ e. e ≡ compared int_lt text_lt (opened (L.live live.now) cells.now a.now) (opened (L.live live.now) cells.now b.now)) }
{
    match (a, b) {
        (Value::Int(m), Value::Int(n)) => Ok(truth(*m < *n)),
        (Value::Str(s), Value::Str(t)) => Ok(truth(s.as_slice().cmp(t.as_slice()).is_lt())),
        _ => refused(alloc, ErrorKind::BadOperands),
    }
}

/// `<=`
fn is_at_most<L: Living>(
    alloc: Global,
    a: &Value,
    b: &Value,
    cells: &Cells,
    live: &L,
) -> Result<Effect, AllocError>
    ensures { IfOk result (λ e. e ≡ compared int_le text_le (opened (L.live live.now) cells.now a.now) (opened (L.live live.now) cells.now b.now)) }
{
    match (a, b) {
        (Value::Int(m), Value::Int(n)) => Ok(truth(*m <= *n)),
        (Value::Str(s), Value::Str(t)) => Ok(truth(s.as_slice().cmp(t.as_slice()).is_le())),
        _ => refused(alloc, ErrorKind::BadOperands),
    }
}

/// The pairs of a mapping whose keys are not in another.
fn mapping_difference<L: Living>(
    alloc: Global,
    c: CellId,
    d: CellId,
    cells: &Cells,
    live: &L,
) -> Result<Effect, AllocError>
    requires left { IsSome (pairs_at cells.now c) }
    requires right { IsSome (pairs_at cells.now d) }
    ensures { IfOk result (λ e. e ≡ Effect.Makes (Content.Mapping (pairs_of (pairs_without (L.live live.now) (pairs_there (L.live live.now) (stored_pairs cells.now c)) (pairs_there (L.live live.now) (stored_pairs cells.now d)))))) }
{
    Ok(mapping(pairs_without(alloc, cells.pairs(c), cells.pairs(d), live)?))
}
