//! The prefix operators.
ghost use Rattle.std.specs.Prelude.{◌≡◌, Bool};
ghost use Rattle.lp_values.specs.declared.id.ObjId.{ObjId};
ghost use Rattle.lp_cells.specs.Cells.{Store};
ghost use Rattle.lp_ops.specs.Effects.{Answers};
ghost use Rattle.lp_ops.specs.Operands.{opened, operand};
ghost use Rattle.lp_ops.specs.Operators.{unary};

use crate::effect::fault;
use crate::fault::OpFault;
use lp_cells::cells::Cells;
use lp_tree::operator::UnOp;
use lp_values::error::ErrorKind;
use lp_values::value::{Living, Value};
use std::alloc::Global;

/// The value of a prefix operator. No cell changes.
pub fn unary<L: Living>(
    alloc: Global,
    op: UnOp,
    a: &Value,
    cells: &mut Cells,
    live: &L,
) -> Result<Value, OpFault>
    ensures value { Answers (unary op (operand (L.live live.now) cells.old a.now)) result }
    ensures cells { cells.new ≡ cells.old }
{
    let a = a.copy_as_read(live)?;
    match op {
        UnOp::Not => Ok(Value::Int(if a == Value::Int(0) { 1 } else { 0 })),
        UnOp::Flip => flipped(alloc, &a),
        UnOp::Neg => negated(alloc, &a),
    }
}

/// `~`
fn flipped(alloc: Global, a: &Value) -> Result<Value, OpFault>
    ensures { (live : ObjId → Bool) (cells : Store) → Answers (unary UnOp.Flip (opened live cells a.now)) result }
{
    match a {
        Value::Int(n) => Ok(Value::Int(!*n)),
        _ => Err(fault(alloc, ErrorKind::BadOperands)),
    }
}

/// `-`
fn negated(alloc: Global, a: &Value) -> Result<Value, OpFault>
    ensures { (live : ObjId → Bool) (cells : Store) → Answers (unary UnOp.Neg (opened live cells a.now)) result }
{
    match a {
        Value::Int(n) => match n.checked_neg() {
            Some(m) => Ok(Value::Int(m)),
            None => Err(fault(alloc, ErrorKind::Overflow)),
        },
        _ => Err(fault(alloc, ErrorKind::BadOperands)),
    }
}
