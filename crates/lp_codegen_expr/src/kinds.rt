//! What assignments, ends of ranges and short circuits become.
ghost use Rattle.std.specs.Prelude.{◌≡◌};
ghost use Rattle.lp_language.specs.Eval.{kind_of_end};
ghost use Rattle.lp_codegen_expr.specs.Drafts.{keeps, kind_of};
ghost use Rattle.lp_tree.specs.Pieces.{end_tree};

use lp_instr::instr::{EndKind, Instr};
use lp_tree::expr::{Bound, Edge, Expr};
use lp_tree::operator::{AssignOp, BinOp};

/// What an assignment does.
#[derive(Clone, Copy, Drop)]
pub enum AssignKind {
    /// It writes.
    Set,
    /// It writes where the old value is not 0, or else where it is.
    Logic(bool),
    /// It applies an operator.
    Compound(BinOp),
}

/// What an assignment does.
pub fn assign_kind(op: AssignOp) -> AssignKind
    ensures { result ≡ kind_of op }
{
    match op {
        AssignOp::Set => AssignKind::Set,
        AssignOp::Add => AssignKind::Compound(BinOp::Add),
        AssignOp::Sub => AssignKind::Compound(BinOp::Sub),
        AssignOp::Mul => AssignKind::Compound(BinOp::Mul),
        AssignOp::Div => AssignKind::Compound(BinOp::Div),
        AssignOp::Rem => AssignKind::Compound(BinOp::Rem),
        AssignOp::And => AssignKind::Compound(BinOp::And),
        AssignOp::Or => AssignKind::Compound(BinOp::Or),
        AssignOp::Xor => AssignKind::Compound(BinOp::Xor),
        AssignOp::Shl => AssignKind::Compound(BinOp::Shl),
        AssignOp::Shr => AssignKind::Compound(BinOp::Shr),
        AssignOp::AndThen => AssignKind::Logic(true),
        AssignOp::OrElse => AssignKind::Logic(false),
    }
}

/// How an end of a range is given.
pub fn end_kind(end: &Bound<Box<Expr>>) -> EndKind
    ensures { result ≡ kind_of_end (end_tree end.now) }
{
    match end {
        Bound::Open => EndKind::Open,
        Bound::At(Edge::Front, _) => EndKind::Start,
        Bound::At(Edge::Back, _) => EndKind::Back,
    }
}

/// The jump over the right side of `&&` or `||`.
pub fn keep(is_and: bool, to: u32) -> Instr
    ensures { result ≡ keeps is_and to }
{
    if is_and {
        Instr::KeepIfZero(to)
    } else {
        Instr::KeepIfNotZero(to)
    }
}
