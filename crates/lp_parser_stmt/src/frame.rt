//! Statements that were begun.
ghost use Rattle.std.specs.Prelude.{◌≡◌, ◌||◌};
ghost use Rattle.lp_tree.specs.Statements.{Around};
ghost use Rattle.lp_parser_stmt.specs.Arounds.{around_in};
ghost use Rattle.lp_parser_stmt.specs.Depth.{frame_extra};
ghost use Rattle.lp_parser_stmt.specs.View.{frame_of};

use lp_tree::expr::Expr;
use lp_tree::stmt::{Each, Init, Part, Stmt};

/// A `switch` up to its next part.
#[derive(Drop)]
pub struct Switching {
    /// Its line.
    pub line: u32,
    /// What the labels are compared with.
    pub on: Box<Expr>,
    /// The labels and statements that are whole.
    pub done: Vec<Part<Stmt>>,
}

/// A statement that was begun, a statement in it being open: its line, and its parts up to the open one.
#[derive(Drop)]
pub enum Frame {
    /// `{ a; ..`
    InBlock(u32, Vec<Stmt>),
    /// `switch (a) { b; ..`
    InSwitch(Switching),
    /// `if (a) ..`
    IfYes(u32, Box<Expr>),
    /// `if (a) b else ..`
    IfNo(u32, Box<Expr>, Box<Stmt>),
    /// `while (a) ..`
    WhileBody(u32, Box<Expr>),
    /// `do ..`
    DoBody(u32),
    /// `for (a; b; c) ..`
    ForBody(u32, Box<Init>, Option<Box<Expr>>, Option<Box<Expr>>),
    /// `foreach (a, b : c) ..`
    EachBody(u32, Each, Option<Each>, Box<Expr>),
}

/// An open statement, with what stands round a statement in it.
#[derive(Drop)]
pub struct Open {
    /// The statement.
    pub frame: Frame,
    /// Whether a `break` in it has what it leaves.
    pub may_break: bool,
    /// Whether a `continue` in it has what it leaves.
    pub may_continue: bool,
}

impl Frame {
    /// Whether a `break` in it leaves it.
    pub fn takes_break(&self) -> bool
        ensures { (a : Around) → (around_in (frame_of self.now) a).may_break ≡ (result || a.may_break) }
    {
        match self {
            Frame::InBlock(_, _) | Frame::IfYes(_, _) | Frame::IfNo(_, _, _) => false,
            _ => true,
        }
    }

    /// Whether a `continue` in it leaves it.
    pub fn takes_continue(&self) -> bool
        ensures { (a : Around) → (around_in (frame_of self.now) a).may_continue ≡ (result || a.may_continue) }
    {
        match self {
            Frame::InBlock(_, _) | Frame::InSwitch(_) | Frame::IfYes(_, _) | Frame::IfNo(_, _, _) =>
                false,
            _ => true,
        }
    }

    /// 1 where a statement in it has to come, and 0 where none has to.
    pub fn extra(&self) -> u32
        ensures { result ≡ frame_extra (frame_of self.now) }
    {
        match self {
            Frame::InBlock(_, _) | Frame::InSwitch(_) => 0,
            _ => 1,
        }
    }
}
