//! Parts of expressions.
use lp_tree::expr::Expr;

/// A part of an expression, and the line of the token at which it begins.
#[derive(Clone, Copy)]
pub struct Visit<'a> {
    /// The line, from 1.
    pub line: u32,
    /// The part.
    pub node: &'a Expr,
}
