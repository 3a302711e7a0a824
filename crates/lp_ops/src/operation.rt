//! What is paid for.

use lp_tree::operator::{BinOp, UnOp};

/// An operation of the language that costs something by itself.
#[derive(Clone, Copy, Debug, PartialEq, Eq)]
pub enum Operation {
    /// A prefix operator.
    Unary(UnOp),
    /// A binary operator.
    Binary(BinOp),
    /// `++` or `--`, before or after its place.
    Step,
    /// An index that is read.
    Index,
    /// An index that is written.
    Write,
    /// A range.
    Range,
    /// An array or a mapping that is spelled out.
    Literal,
}
