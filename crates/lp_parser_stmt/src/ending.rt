//! How statements end.
ghost use Rattle.std.specs.Prelude.{◌≡◌, None, suc, IfOk, Ok, OnOk, false, if◌then◌else◌, option_map, true};
ghost use Rattle.lp_tree.specs.StatementView.{init_of, part_trees, stmt_of};
ghost use Rattle.lp_tree.specs.Statements.{DoWhile, StmtTree, Switch};
ghost use Rattle.lp_tree.specs.TreeView.{tree_of};
ghost use Rattle.lp_parser_stmt.specs.Depth.{depth};
ghost use Rattle.lp_parser_stmt.specs.Endings.{Ends, ended};
ghost use Rattle.lp_parser_stmt.specs.Machine.{EachBody, ForBody, IfNo, IfYes, Inside, WhileBody, settle as settled};
ghost use Rattle.lp_parser_stmt.specs.StackView.{stack_of};
ghost use Rattle.lp_parser_stmt.specs.View.{frame_of, switching_of};

use crate::frame::{Frame, Switching};
use crate::stack::Stack;
use lp_tree::expr::Expr;
use lp_tree::stmt::{Each, Init, Stmt};
use std::alloc::{AllocError, Global};

/// What a statement makes of the one round it.
#[derive(Drop)]
pub enum Ended {
    /// It is whole with it.
    Whole(Box<Stmt>),
    /// It is not, and both are as they were.
    Stays(Frame, Box<Stmt>),
}

/// `switch (on) { parts }`
pub fn switch_of(switching: Switching) -> Stmt
    ensures { stmt_of result ≡ Switch (switching_of switching).line (switching_of switching).on (part_trees (switching_of switching).done) }
{
    Stmt::Switch {
        line: switching.line,
        on: Box::into_inner(switching.on),
        parts: switching.done,
    }
}

// A statement on the heap.
pub(crate) fn boxed(alloc: Global, stmt: Stmt) -> Result<Box<Stmt>, AllocError>
    ensures { IfOk result (λ b. b.value ≡ stmt) }
{
    Ok(Box::new(alloc, stmt)?)
}

/// `do body while (test);`
pub fn end_do(
    alloc: Global,
    line: u32,
    body: Box<Stmt>,
    test: Box<Expr>,
) -> Result<Box<Stmt>, AllocError>
    ensures { IfOk result (λ t. stmt_of t.value ≡ DoWhile line (stmt_of body.value) (tree_of test.value)) }
{
    let test = Box::into_inner(test);
    boxed(alloc, Stmt::DoWhile { line, body, test })
}

// An expression that may be missing, off the heap.
pub(crate) fn unboxed(part: Option<Box<Expr>>) -> Option<Expr>
    ensures { option_map tree_of result ≡ option_map (λ b. tree_of b.value) part }
{
    match part {
        None => None,
        Some(part) => Some(Box::into_inner(part)),
    }
}

// `if (test) yes`, where no `else` follows.
fn end_yes(alloc: Global, line: u32, test: Box<Expr>, yes: Box<Stmt>) -> Result<Ended, AllocError>
    ensures { Ends false (stmt_of yes.value) (IfYes line (tree_of test.value)) result }
{
    let test = Box::into_inner(test);
    let whole = Stmt::If {
        line,
        test,
        yes,
        no: None,
    };
    Ok(Ended::Whole(boxed(alloc, whole)?))
}

// `if (test) yes else no`
fn end_no(
    alloc: Global,
    line: u32,
    test: Box<Expr>,
    yes: Box<Stmt>,
    no: Box<Stmt>,
) -> Result<Ended, AllocError>
    ensures { Ends false (stmt_of no.value) (IfNo line (tree_of test.value) (stmt_of yes.value)) result }
{
    let test = Box::into_inner(test);
    let whole = Stmt::If {
        line,
        test,
        yes,
        no: Some(no),
    };
    Ok(Ended::Whole(boxed(alloc, whole)?))
}

// `while (test) body`
fn end_while(
    alloc: Global,
    line: u32,
    test: Box<Expr>,
    body: Box<Stmt>,
) -> Result<Ended, AllocError>
    ensures { Ends false (stmt_of body.value) (WhileBody line (tree_of test.value)) result }
{
    let test = Box::into_inner(test);
    Ok(Ended::Whole(boxed(alloc, Stmt::While { line, test, body })?))
}

// `for (init; test; step) body`
fn end_for(
    alloc: Global,
    line: u32,
    init: Box<Init>,
    test: Option<Box<Expr>>,
    step: Option<Box<Expr>>,
    body: Box<Stmt>,
) -> Result<Ended, AllocError>
    ensures { Ends false (stmt_of body.value) (ForBody line (init_of init.value) (option_map (λ b. tree_of b.value) test) (option_map (λ b. tree_of b.value) step)) result }
{
    let test = unboxed(test);
    let step = unboxed(step);
    let init = Box::into_inner(init);
    let whole = Stmt::For {
        line,
        init,
        test,
        step,
        body,
    };
    Ok(Ended::Whole(boxed(alloc, whole)?))
}

// `foreach (first, second : over) body`
fn end_each(
    alloc: Global,
    line: u32,
    first: Each,
    second: Option<Each>,
    over: Box<Expr>,
    body: Box<Stmt>,
) -> Result<Ended, AllocError>
    ensures { Ends false (stmt_of body.value) (EachBody line first second (tree_of over.value)) result }
{
    let over = Box::into_inner(over);
    let whole = Stmt::Foreach {
        line,
        first,
        second,
        over,
        body,
    };
    Ok(Ended::Whole(boxed(alloc, whole)?))
}

// A whole statement in an open one, where no `else` follows.
fn end_with(alloc: Global, frame: Frame, stmt: Box<Stmt>) -> Result<Ended, AllocError>
    ensures { Ends false (stmt_of stmt.value) (frame_of frame) result }
{
    match frame {
        Frame::IfYes(line, test) => end_yes(alloc, line, test, stmt),
        Frame::IfNo(line, test, yes) => end_no(alloc, line, test, yes, stmt),
        Frame::WhileBody(line, test) => end_while(alloc, line, test, stmt),
        Frame::ForBody(line, init, test, step) => end_for(alloc, line, init, test, step, stmt),
        Frame::EachBody(line, first, second, over) => end_each(
            alloc, line, first, second, over, stmt,
        ),
        other => Ok(Ended::Stays(other, stmt)),
    }
}

// Whether a whole statement in an open one ends it.
fn ends(frame: &Frame, is_else: bool) -> bool
    ensures { (t : StmtTree) → ended is_else t (frame_of frame.now) ≡ (if result then ended false t (frame_of frame.now) else None) }
{
    match frame {
        Frame::IfYes(_, _) => !is_else,
        Frame::InBlock(_, _) | Frame::InSwitch(_) | Frame::DoBody(_) => false,
        _ => true,
    }
}

// A whole statement in an open one: that ends, where nothing but this was missing.
fn end_frame(
    alloc: Global,
    frame: Frame,
    stmt: Box<Stmt>,
    is_else: bool,
) -> Result<Ended, AllocError>
    ensures { Ends is_else (stmt_of stmt.value) (frame_of frame) result }
{
    if ends(&frame, is_else) {
        return end_with(alloc, frame, stmt);
    }
    Ok(Ended::Stays(frame, stmt))
}

// A whole statement, and whether it ends no other.
#[derive(Drop)]
struct Settling {
    stmt: Box<Stmt>,
    is_last: bool,
}

// A statement that stays open again, with the whole one in it.
fn stays(stack: &mut Stack, frame: Frame, stmt: Box<Stmt>) -> Result<Settling, AllocError>
    ensures last { IfOk result (λ n. n.is_last ≡ true) }
    ensures stmt { IfOk result (λ n. n.stmt ≡ stmt) }
    ensures stack { OnOk result (stack_of stack.new ≡ Inside (frame_of frame) (stack_of stack.old)) }
{
    match stack.push(frame) {
        Ok(()) => Ok(Settling {
            stmt,
            is_last: true,
        }),
        Err(error) => {
            drop(stmt);
            Err(error)
        }
    }
}

// A whole statement in an open one, which was taken from the stack.
fn settle_frame(
    alloc: Global,
    stack: &mut Stack,
    frame: Frame,
    stmt: Box<Stmt>,
    is_else: bool,
) -> Result<Settling, AllocError>
    ensures goes { IfOk result (λ n. n.is_last ≡ false → settled is_else (stmt_of stmt.value) (Inside (frame_of frame) (stack_of stack.old)) ≡ settled is_else (stmt_of n.stmt.value) (stack_of stack.new)) }
    ensures below { IfOk result (λ n. n.is_last ≡ false → stack_of stack.new ≡ stack_of stack.old) }
    ensures stops { IfOk result (λ n. n.is_last ≡ true → settled is_else (stmt_of stmt.value) (Inside (frame_of frame) (stack_of stack.old)) ≡ record { stmt = stmt_of n.stmt.value; stack = stack_of stack.new }) }
{
    match end_frame(alloc, frame, stmt, is_else)? {
        Ended::Whole(whole) => Ok(Settling {
            stmt: whole,
            is_last: false,
        }),
        Ended::Stays(frame, same) => stays(stack, frame, same),
    }
}

// A whole statement: the innermost open one ends with it, or none does.
fn settle_once(
    alloc: Global,
    stack: &mut Stack,
    stmt: Box<Stmt>,
    is_else: bool,
) -> Result<Settling, AllocError>
    ensures goes { IfOk result (λ n. n.is_last ≡ false → settled is_else (stmt_of stmt.value) (stack_of stack.old) ≡ settled is_else (stmt_of n.stmt.value) (stack_of stack.new)) }
    ensures below { IfOk result (λ n. n.is_last ≡ false → suc (depth (stack_of stack.new)) ≡ depth (stack_of stack.old)) }
    ensures stops { IfOk result (λ n. n.is_last ≡ true → settled is_else (stmt_of stmt.value) (stack_of stack.old) ≡ record { stmt = stmt_of n.stmt.value; stack = stack_of stack.new }) }
{
    match stack.pop() {
        None => Ok(Settling {
            stmt,
            is_last: true,
        }),
        Some(frame) => settle_frame(alloc, stack, frame, stmt, is_else),
    }
}

/// Ends the statements that a token ends, which is an `else` or not. An `else` goes with the nearest `if`.
pub fn settle(
    alloc: Global,
    stack: &mut Stack,
    stmt: Box<Stmt>,
    is_else: bool,
) -> Result<Box<Stmt>, AllocError>
    ensures { IfOk result (λ u. settled is_else (stmt_of stmt.value) (stack_of stack.old) ≡ record { stmt = stmt_of u.value; stack = stack_of stack.new }) }
{
    let mut stmt = stmt;
    loop {
        let next = settle_once(alloc, stack, stmt, is_else)?;
        stmt = next.stmt;
        if next.is_last {
            return Ok(stmt);
        }
    }
}
