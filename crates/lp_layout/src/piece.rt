//! What the layout looks at in statements.
use lp_tree::expr::Expr;

/// What the layout looks at in statements.
#[derive(Clone, Copy)]
pub enum Piece<'a> {
    /// So many locals are declared.
    Locals(usize),
    /// An expression.
    Runs(&'a Expr),
}
