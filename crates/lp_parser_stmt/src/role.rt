//! What an expression or a declaration is read for.
use lp_tree::expr::Expr;
use lp_tree::stmt::{Each, Init, Stmt};

/// A part of a statement that may be missing, with the statement's line and its parts before it.
#[derive(Drop)]
pub enum Optional {
    /// The value of a `return`.
    Value(u32),
    /// The first part of a `for`.
    First(u32),
    /// Its second.
    Test(u32, Box<Init>),
    /// Its third.
    Step(u32, Box<Init>, Option<Box<Expr>>),
}

/// What an expression is read for, with the statement's line and its parts before it.
#[derive(Drop)]
pub enum Role {
    /// To be a statement.
    ToRun,
    /// `if (..`
    TestIf(u32),
    /// `while (..`
    TestWhile(u32),
    /// `do body while (..`
    TestDo(u32, Box<Stmt>),
    /// `foreach (first, second : ..`
    OverEach(u32, Each, Option<Each>),
    /// `switch (..`
    OnSwitch(u32),
    /// A part that may be missing.
    OneOf(Optional),
}

/// Whose a declaration is.
#[derive(Clone, Copy)]
pub enum Whose {
    /// A statement's.
    OfStmt,
    /// The `for`'s on this line.
    OfFor(u32),
}
