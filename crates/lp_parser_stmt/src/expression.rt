//! Expressions in statements.
ghost use Rattle.std.specs.Prelude.{◌≡◌, [], IfOk, Ok, None, Some, if◌then◌else◌, option_map};
ghost use Rattle.lp_tree.specs.StatementView.{init_of, stmt_of};
ghost use Rattle.lp_tree.specs.TreeView.{tree_of};
ghost use Rattle.lp_parser_expr.specs.Machine.{Need as expr_need, step as expr_next};
ghost use Rattle.lp_parser_expr.specs.Moves.{state_of as expr_state};
ghost use Rattle.lp_parser_expr.specs.StackView.{stack_of as expr_stack};
ghost use Rattle.lp_parser_stmt.specs.Endings.{is_end};
ghost use Rattle.lp_parser_stmt.specs.Machine.{First, Have, Inside, Maybe, Need, OnSwitch, OneOf, Reading, Stack as Opens, TestDo, ToRun, after_some, by_paren as ends_by_paren, filled as filled_by, first_declares as first_declared, init_of as init_made, maybe as maybe_given, reads, step, used as used_for};
ghost use Rattle.lp_parser_stmt.specs.Moves.{Steps};
ghost use Rattle.lp_parser_stmt.specs.StackView.{stack_of};
ghost use Rattle.lp_parser_stmt.specs.View.{frame_of, optional_of, role_of};

use crate::class::{Class, class_of, mark_of};
use crate::ending::{boxed, end_do, unboxed};
use crate::focus::{Focus, Moved};
use crate::frame::{Frame, Switching};
use crate::names::Names;
use crate::role::{Optional, Role, Whose};
use crate::stack::Stack;
use lp_parser_expr::focus::{Focus as ExprFocus, Moved as ExprMoved};
use lp_parser_expr::machine::step as expr_step;
use lp_parser_expr::stack::Stack as ExprStack;
use lp_parser_expr::tall::Tall;
use lp_tree::expr::Expr;
use lp_tree::keyword::Base;
use lp_tree::seen::{Seen, Sort};
use lp_tree::stmt::{Init, Stmt};
use lp_tree::token::Mark;
use std::alloc::{AllocError, Global};

/// The first token of an expression.
pub fn begin_expression(alloc: Global, role: Role, seen: Seen) -> Result<Moved, AllocError>
    ensures { (s : Opens) → Steps (reads (expr_next (expr_need []) seen) (role_of role) s) s result }
{
    let mut inner = ExprStack::new(alloc);
    match expr_step(alloc, &mut inner, ExprFocus::Need, seen)? {
        ExprMoved::Goes(next) => Ok(Moved::Goes(Focus::Reading(inner, next, role))),
        ExprMoved::Ends(_) => Ok(Moved::Refuses),
    }
}

// What was read of the statement is on the stack, and a statement comes.
pub(crate) fn opens(stack: &mut Stack, frame: Frame) -> Result<Moved, AllocError>
    ensures { Steps (Some (Need (Inside (frame_of frame) (stack_of stack.old)))) (stack_of stack.new) result }
{
    stack.push(frame)?;
    Ok(Moved::Goes(Focus::Need))
}

// A `switch` up to its brace.
fn opens_switch(
    alloc: Global,
    stack: &mut Stack,
    line: u32,
    on: Box<Expr>,
) -> Result<Moved, AllocError>
    ensures { Steps (Some (used_for (OnSwitch line) (tree_of on.value) (stack_of stack.old))) (stack_of stack.new) result }
{
    stack.push(Frame::InSwitch(Switching {
        line,
        on,
        done: Vec::new(alloc),
    }))?;
    Ok(Moved::Goes(Focus::Awaits(Mark::OpenBrace)))
}

// The first part of a `for`, which is no declaration.
fn init_from(alloc: Global, of: Option<Box<Expr>>) -> Result<Box<Init>, AllocError>
    ensures { IfOk result (λ i. init_of i.value ≡ init_made (option_map (λ b. tree_of b.value) of)) }
{
    let init = match of {
        None => Init::Nothing,
        Some(of) => Init::Runs(Box::into_inner(of)),
    };
    Ok(Box::new(alloc, init)?)
}

/// A statement is whole.
pub(crate) fn have(alloc: Global, stack: &Stack, stmt: Stmt) -> Result<Moved, AllocError>
    ensures { Steps (Some (Have (stmt_of stmt) (stack_of stack.now))) (stack_of stack.now) result }
{
    Ok(Moved::Goes(Focus::Have(boxed(alloc, stmt)?)))
}

// The first part of a `for` was read.
fn first_filled(
    alloc: Global,
    stack: &Stack,
    line: u32,
    value: Option<Box<Expr>>,
) -> Result<Moved, AllocError>
    ensures { Steps (Some (filled_by (First line) (option_map (λ b. tree_of b.value) value) (stack_of stack.now))) (stack_of stack.now) result }
{
    let init = init_from(alloc, value)?;
    Ok(Moved::Goes(Focus::Maybe(Optional::Test(line, init))))
}

// The test of a `do` was read.
fn test_do(
    alloc: Global,
    stack: &Stack,
    line: u32,
    body: Box<Stmt>,
    tree: Box<Expr>,
) -> Result<Moved, AllocError>
    ensures { Steps (Some (used_for (TestDo line (stmt_of body.value)) (tree_of tree.value) (stack_of stack.now))) (stack_of stack.now) result }
{
    Ok(Moved::Goes(Focus::EndStmt(end_do(alloc, line, body, tree)?)))
}

/// An optional part was read, or passed over, with the mark behind it.
pub fn filled(
    alloc: Global,
    stack: &mut Stack,
    part: Optional,
    value: Option<Box<Expr>>,
) -> Result<Moved, AllocError>
    ensures { Steps (Some (filled_by (optional_of part) (option_map (λ b. tree_of b.value) value) (stack_of stack.old))) (stack_of stack.new) result }
{
    match part {
        Optional::Value(line) => {
            let value = unboxed(value);
            have(alloc, stack, Stmt::Return { line, value })
        }
        Optional::First(line) => first_filled(alloc, stack, line, value),
        Optional::Test(line, init) => Ok(Moved::Goes(Focus::Maybe(Optional::Step(
            line, init, value,
        )))),
        Optional::Step(line, init, test) => opens(stack, Frame::ForBody(line, init, test, value)),
    }
}

// A statement that is an expression was read.
fn run(alloc: Global, stack: &Stack, tree: Box<Expr>) -> Result<Moved, AllocError>
    ensures { Steps (Some (used_for ToRun (tree_of tree.value) (stack_of stack.now))) (stack_of stack.now) result }
{
    let line = tree.line();
    let of = Box::into_inner(tree);
    have(alloc, stack, Stmt::Run { line, of })
}

// An expression and the mark that ends it were read.
fn used(alloc: Global, stack: &mut Stack, role: Role, tree: Box<Expr>) -> Result<Moved, AllocError>
    ensures { Steps (Some (used_for (role_of role) (tree_of tree.value) (stack_of stack.old))) (stack_of stack.new) result }
{
    match role {
        Role::ToRun => run(alloc, stack, tree),
        Role::TestIf(line) => opens(stack, Frame::IfYes(line, tree)),
        Role::TestWhile(line) => opens(stack, Frame::WhileBody(line, tree)),
        Role::TestDo(line, body) => test_do(alloc, stack, line, body, tree),
        Role::OverEach(line, first, second) => opens(
            stack,
            Frame::EachBody(line, first, second, tree),
        ),
        Role::OnSwitch(line) => opens_switch(alloc, stack, line, tree),
        Role::OneOf(part) => filled(alloc, stack, part, Some(tree)),
    }
}

// Whether `)` ends an expression, and not `;`.
fn by_paren(role: &Role) -> bool
    ensures { result ≡ ends_by_paren (role_of role.now) }
{
    match role {
        Role::ToRun => false,
        Role::OneOf(Optional::Step(_, _, _)) => true,
        Role::OneOf(_) => false,
        _ => true,
    }
}

// Whether this mark ends an expression.
fn ends_by(mark: Option<Mark>, role: &Role) -> bool
    ensures { result ≡ is_end mark (role_of role.now) }
{
    match mark {
        Some(Mark::Semicolon) => !by_paren(role),
        Some(Mark::CloseParen) => by_paren(role),
        _ => false,
    }
}

// Behind a whole expression.
fn after(
    alloc: Global,
    stack: &mut Stack,
    role: Role,
    tree: Box<Expr>,
    mark: Option<Mark>,
) -> Result<Moved, AllocError>
    ensures { Steps (after_some mark (role_of role) (Some (tree_of tree.value)) (stack_of stack.old)) (stack_of stack.new) result }
{
    if ends_by(mark, &role) {
        return used(alloc, stack, role, tree);
    }
    drop(role);
    drop(tree);
    Ok(Moved::Refuses)
}

/// A token of an expression, or behind it.
pub fn reading(
    alloc: Global,
    stack: &mut Stack,
    inner: ExprStack,
    at: ExprFocus,
    role: Role,
    seen: Seen,
) -> Result<Moved, AllocError>
    ensures { Steps (step (Reading (expr_state at (expr_stack inner)) (role_of role) (stack_of stack.old)) seen) (stack_of stack.new) result }
{
    let mark = mark_of(&seen.sort);
    let mut inner = inner;
    match expr_step(alloc, &mut inner, at, seen) {
        Ok(ExprMoved::Goes(next)) => Ok(Moved::Goes(Focus::Reading(inner, next, role))),
        Ok(ExprMoved::Ends(Some(tree))) => {
            drop(inner);
            after(alloc, stack, role, tree.expr, mark)
        }
        Ok(ExprMoved::Ends(None)) => {
            drop(inner);
            drop(role);
            Ok(Moved::Refuses)
        }
        Err(error) => {
            drop(inner);
            drop(role);
            Err(error)
        }
    }
}

// A declaration, which is the first part of a `for` alone.
fn first_declares(alloc: Global, part: Optional, base: Base, line: u32) -> Moved
    ensures { (s : Opens) → Steps (first_declared base line (optional_of part) s) s (Ok result) }
{
    match part {
        Optional::First(owner) => Moved::Goes(Focus::Declaring(
            line,
            base,
            Names::new(alloc),
            Whose::OfFor(owner),
        )),
        other => {
            drop(other);
            Moved::Refuses
        }
    }
}

// Whether `)` ends an optional part, and not `;`.
fn is_last(part: &Optional) -> bool
    ensures { result ≡ ends_by_paren (OneOf (optional_of part.now)) }
{
    match part {
        Optional::Step(_, _, _) => true,
        _ => false,
    }
}

// A mark where an optional part may be missing, which ends it or not.
fn skips(
    alloc: Global,
    stack: &mut Stack,
    part: Optional,
    is_end: bool,
) -> Result<Moved, AllocError>
    ensures { Steps (if is_end then Some (filled_by (optional_of part) None (stack_of stack.old)) else None) (stack_of stack.new) result }
{
    if is_end {
        return filled(alloc, stack, part, None);
    }
    drop(part);
    Ok(Moved::Refuses)
}

// A token of this class.
fn maybe_class(
    alloc: Global,
    stack: &mut Stack,
    part: Optional,
    class: Class,
    seen: Seen,
) -> Result<Moved, AllocError>
    ensures { Steps (maybe_given class seen (optional_of part) (stack_of stack.old)) (stack_of stack.new) result }
{
    let is_last = is_last(&part);
    match class {
        Class::SemicolonEnds => {
            drop(seen);
            skips(alloc, stack, part, !is_last)
        }
        Class::ParenCloses => {
            drop(seen);
            skips(alloc, stack, part, is_last)
        }
        Class::TypeBegins(base) => Ok(first_declares(alloc, part, base, seen.line)),
        Class::ExpressionBegins => begin_expression(alloc, Role::OneOf(part), seen),
        _ => {
            drop(part);
            drop(seen);
            Ok(Moved::Refuses)
        }
    }
}

/// A token where an expression may be missing.
pub fn maybe(
    alloc: Global,
    stack: &mut Stack,
    part: Optional,
    seen: Seen,
) -> Result<Moved, AllocError>
    ensures { Steps (step (Maybe (optional_of part) (stack_of stack.old)) seen) (stack_of stack.new) result }
{
    let class = class_of(&seen.sort);
    maybe_class(alloc, stack, part, class, seen)
}
