//! Operators between two operands.
use lp_tree::operator::BinOp;

/// An operator between two operands.
#[derive(Clone, Copy, Debug, PartialEq, Eq)]
pub enum Infix {
    /// One that takes both operands.
    Plain(BinOp),
    /// `&&`
    And,
    /// `||`
    Or,
}
