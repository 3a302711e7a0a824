//! What the machine waits for.
use crate::frame::Switching;
use crate::names::Names;
use crate::role::{Optional, Role, Whose};
use lp_parser_expr::focus::Focus as ExprFocus;
use lp_parser_expr::stack::Stack as ExprStack;
use lp_tree::keyword::Base;
use lp_tree::stmt::{Each, Stmt};
use lp_tree::token::Mark;

/// What comes behind the parenthesis that is waited for, with the statement's line.
#[derive(Drop)]
pub enum Opening {
    /// An expression.
    Test(Role),
    /// The first part of a `for`.
    ForParts(u32),
    /// The variables of a `foreach`.
    Variables(u32),
}

/// What was read of a variable of a `foreach`.
#[derive(Drop)]
pub enum EachAt {
    /// Nothing.
    Begins,
    /// The line of its first token, the word of its type, and so many stars.
    Stars(u32, Base, u32),
    /// All of it.
    Named(Each),
}

/// What was read of a label behind `case`.
#[derive(Clone, Copy)]
pub enum LabelAt {
    /// Nothing.
    Begins,
    /// A minus.
    Minus,
    /// This integer.
    Int(i64),
    /// This integer and `..`.
    To(i64),
    /// This integer, `..` and a minus.
    ToMinus(i64),
}

/// What the machine waits for.
#[derive(Drop)]
pub enum Focus {
    /// A statement, or what ends the statements here.
    Need,
    /// A token behind this statement.
    Have(Box<Stmt>),
    /// This mark, and then a statement or what ends the statements here.
    Awaits(Mark),
    /// The semicolon that ends this statement.
    EndStmt(Box<Stmt>),
    /// A parenthesis.
    Opens(Opening),
    /// A token of an expression, or behind it.
    Reading(ExprStack, ExprFocus, Role),
    /// An expression that may be missing.
    Maybe(Optional),
    /// A token of the names of a declaration, or behind them, with the declaration's line and the word of its type.
    Declaring(u32, Base, Names, Whose),
    /// A token of a variable of a `foreach`, or behind it, with the statement's line and the variable before it.
    Variable(u32, Option<Each>, EachAt),
    /// A token of a label, with the label's line.
    Label(u32, LabelAt, Switching),
}

/// What a token makes of the machine.
#[derive(Drop)]
pub enum Moved {
    /// It goes on.
    Goes(Focus),
    /// The function's statements are read.
    Over(Vec<Stmt>),
    /// No function goes on so.
    Refuses,
}
