//! The machine, moved by one token at a time.
ghost use Rattle.std.specs.Prelude.{◌≡◌, ◌+◌, ◌∷◌, ◌++◌, [], max, ℕ, None, Ok, OnOk, Some, if◌then◌else◌};
ghost use Rattle.lp_tree.specs.StatementView.{stmt_of};
ghost use Rattle.lp_tree.specs.TreeView.{tree_of};
ghost use Rattle.lp_tree.specs.declared.token.Mark.TheVariants.{OpenParen, Semicolon};
ghost use Rattle.lp_parser_expr.specs.Capped.{capped};
ghost use Rattle.lp_parser_stmt.specs.Depth.{depth as levels, here as levels_here, names_here, optional_least, whose_least};
ghost use Rattle.lp_parser_stmt.specs.Machine.{Expect, Have, IfNo, InBlock, InFunction, InSwitch, Inside, Need, Stack as Opens, act as acted, after_body as after_done, after_yes as after_first, is_else as token_is_else, is_mark as token_is_mark, step as next_state};
ghost use Rattle.lp_parser_stmt.specs.Moves.{IsUnsigned, Steps, opening_state, state_of};
ghost use Rattle.lp_parser_stmt.specs.StackView.{done_of, stack_of};
ghost use Rattle.lp_parser_stmt.specs.View.{names_of, optional_of, stmts_of, switching_of, whose_of};

use crate::begin::begin;
use crate::declaration::{declaring, variable};
use crate::ending::settle;
use crate::expression::{maybe, opens, reading};
use crate::focus::{EachAt, Focus, Moved, Opening};
use crate::frame::{Frame, Switching};
use crate::label::{label, more_of_switch};
use crate::names::Names;
use crate::role::{Optional, Role, Whose};
use crate::stack::Stack;
use lp_parser_expr::focus::Focus as ExprFocus;
use lp_parser_expr::reading::least;
use lp_parser_expr::stack::Stack as ExprStack;
use lp_tree::expr::Expr;
use lp_tree::keyword::Keyword;
use lp_tree::seen::{Seen, Sort};
use lp_tree::stmt::{Part, Stmt};
use lp_tree::token::Mark;
use std::alloc::{AllocError, Global};

// Whether a token is an `else`.
fn is_else(sort: &Sort) -> bool
    ensures { result ≡ token_is_else sort.now }
{
    match sort {
        Sort::Reserved(Keyword::Else) => true,
        _ => false,
    }
}

// Whether a token is this mark, of those that are waited for.
fn is_mark(mark: Mark, sort: &Sort) -> bool
    ensures { result ≡ token_is_mark mark sort.now }
{
    match (mark, sort) {
        (Mark::OpenParen, Sort::Mark(Mark::OpenParen)) => true,
        (Mark::OpenBrace, Sort::Mark(Mark::OpenBrace)) => true,
        (Mark::Semicolon, Sort::Mark(Mark::Semicolon)) => true,
        (Mark::Colon, Sort::Mark(Mark::Colon)) => true,
        _ => false,
    }
}

// A token behind the first statement of an `if`.
fn after_yes(
    stack: &mut Stack,
    line: u32,
    test: Box<Expr>,
    yes: Box<Stmt>,
    sort: Sort,
) -> Result<Moved, AllocError>
    ensures { Steps (after_first sort line (tree_of test.value) (stmt_of yes.value) (stack_of stack.old)) (stack_of stack.new) result }
{
    match sort {
        Sort::Reserved(Keyword::Else) => opens(stack, Frame::IfNo(line, test, yes)),
        other => {
            drop(other);
            drop(test);
            drop(yes);
            Ok(Moved::Refuses)
        }
    }
}

// The `while` behind the statement of a `do`.
fn after_body(line: u32, body: Box<Stmt>, sort: Sort) -> Moved
    ensures { (s : Opens) → Steps (after_done sort line (stmt_of body.value) s) s (Ok result) }
{
    match sort {
        Sort::Reserved(Keyword::While) => Moved::Goes(Focus::Opens(Opening::Test(Role::TestDo(
            line, body,
        )))),
        other => {
            drop(other);
            drop(body);
            Moved::Refuses
        }
    }
}

// A whole statement of the function's block.
fn next_of_function(
    alloc: Global,
    stack: &mut Stack,
    stmt: Box<Stmt>,
    seen: Seen,
) -> Result<Moved, AllocError>
    requires { stack_of stack.old ≡ InFunction (done_of stack.old) }
    ensures { Steps (acted seen (stmt_of stmt.value) (stack_of stack.old)) (stack_of stack.new) result }
{
    stack.add(Box::into_inner(stmt))?;
    begin(alloc, stack, seen)
}

// A block with one more whole statement.
fn more_of_block(
    stack: &mut Stack,
    line: u32,
    done: Vec<Stmt>,
    stmt: Box<Stmt>,
) -> Result<(), AllocError>
    ensures { OnOk result (stack_of stack.new ≡ Inside (InBlock line (stmts_of done ++ stmt_of stmt.value ∷ [])) (stack_of stack.old)) }
{
    let mut done = done;
    done.push(Box::into_inner(stmt))?;
    stack.push(Frame::InBlock(line, done))
}

// A whole statement of a block.
fn next_of_block(
    alloc: Global,
    stack: &mut Stack,
    line: u32,
    done: Vec<Stmt>,
    stmt: Box<Stmt>,
    seen: Seen,
) -> Result<Moved, AllocError>
    ensures { Steps (acted seen (stmt_of stmt.value) (Inside (InBlock line (stmts_of done)) (stack_of stack.old))) (stack_of stack.new) result }
{
    more_of_block(stack, line, done, stmt)?;
    begin(alloc, stack, seen)
}

// A whole statement of a `switch`.
fn next_of_switch(
    alloc: Global,
    stack: &mut Stack,
    switching: Switching,
    stmt: Box<Stmt>,
    seen: Seen,
) -> Result<Moved, AllocError>
    ensures { Steps (acted seen (stmt_of stmt.value) (Inside (InSwitch (switching_of switching)) (stack_of stack.old))) (stack_of stack.new) result }
{
    more_of_switch(stack, switching, Part::Stmt(Box::into_inner(stmt)))?;
    begin(alloc, stack, seen)
}

// A token behind a statement that it does not end.
fn act(alloc: Global, stack: &mut Stack, stmt: Box<Stmt>, seen: Seen) -> Result<Moved, AllocError>
    ensures { Steps (acted seen (stmt_of stmt.value) (stack_of stack.old)) (stack_of stack.new) result }
{
    match stack.pop() {
        None => next_of_function(alloc, stack, stmt, seen),
        Some(Frame::InBlock(line, done)) => next_of_block(alloc, stack, line, done, stmt, seen),
        Some(Frame::InSwitch(switching)) => next_of_switch(alloc, stack, switching, stmt, seen),
        Some(Frame::IfYes(line, test)) => after_yes(stack, line, test, stmt, seen.sort),
        Some(Frame::DoBody(line)) => Ok(after_body(line, stmt, seen.sort)),
        other => {
            drop(other);
            drop(stmt);
            Ok(Moved::Refuses)
        }
    }
}

// A token behind a statement.
fn behind(
    alloc: Global,
    stack: &mut Stack,
    stmt: Box<Stmt>,
    seen: Seen,
) -> Result<Moved, AllocError>
    ensures { Steps (next_state (Have (stmt_of stmt.value) (stack_of stack.old)) seen) (stack_of stack.new) result }
{
    let whole = settle(alloc, stack, stmt, is_else(&seen.sort))?;
    act(alloc, stack, whole, seen)
}

// A mark behind which a statement comes.
fn awaited(mark: Mark, sort: Sort) -> Moved
    ensures { (s : Opens) → Steps (if token_is_mark mark sort then Some (Need s) else None) s (Ok result) }
{
    if is_mark(mark, &sort) {
        return Moved::Goes(Focus::Need);
    }
    Moved::Refuses
}

// The semicolon that ends a statement.
fn end_stmt(stmt: Box<Stmt>, sort: Sort) -> Moved
    ensures { (s : Opens) → Steps (if token_is_mark Semicolon sort then Some (Have (stmt_of stmt.value) s) else None) s (Ok result) }
{
    if is_mark(Mark::Semicolon, &sort) {
        return Moved::Goes(Focus::Have(stmt));
    }
    drop(stmt);
    Moved::Refuses
}

// What comes behind a parenthesis.
fn inside(alloc: Global, opening: Opening) -> Focus
    ensures { (s : Opens) → Expect OpenParen (state_of result s) ≡ opening_state opening s }
{
    match opening {
        Opening::Test(role) => Focus::Reading(ExprStack::new(alloc), ExprFocus::Need, role),
        Opening::ForParts(line) => Focus::Maybe(Optional::First(line)),
        Opening::Variables(line) => Focus::Variable(line, None, EachAt::Begins),
    }
}

// A parenthesis.
fn open_paren(alloc: Global, opening: Opening, seen: Seen) -> Moved
    ensures { (s : Opens) → Steps (next_state (opening_state opening s) seen) s (Ok result) }
{
    let next = inside(alloc, opening);
    if is_mark(Mark::OpenParen, &seen.sort) {
        return Moved::Goes(next);
    }
    Moved::Refuses
}

/// One token.
///
/// Where the machine goes on, or the function's statements end with this token, the answer says so; `Refuses` exactly
/// where no function goes on with it.
pub fn step(alloc: Global, stack: &mut Stack, focus: Focus, seen: Seen) -> Result<Moved, AllocError>
    requires { IsUnsigned seen.sort }
    ensures { Steps (next_state (state_of focus (stack_of stack.old)) seen) (stack_of stack.new) result }
{
    match focus {
        Focus::Need => begin(alloc, stack, seen),
        Focus::Have(stmt) => behind(alloc, stack, stmt, seen),
        Focus::Awaits(mark) => Ok(awaited(mark, seen.sort)),
        Focus::EndStmt(stmt) => Ok(end_stmt(stmt, seen.sort)),
        Focus::Opens(opening) => Ok(open_paren(alloc, opening, seen)),
        Focus::Reading(inner, at, role) => reading(alloc, stack, inner, at, role, seen),
        Focus::Maybe(part) => maybe(alloc, stack, part, seen),
        Focus::Declaring(line, base, names, whose) => declaring(
            alloc, line, base, names, whose, seen,
        ),
        Focus::Variable(line, first, at) => variable(alloc, line, first, at, seen),
        Focus::Label(line, at, switching) => label(stack, line, at, switching, seen),
    }
}

// The least levels below the open statements, where an optional part comes.
fn optional_levels(part: &Optional) -> u32
    ensures { result ≡ optional_least (optional_of part.now) }
{
    match part {
        Optional::Value(_) => 1,
        _ => 2,
    }
}

// The least levels below the open statements, where a declaration is read.
fn declaring_levels(names: &Names, whose: Whose) -> u32
    ensures { (d : ℕ) → capped (max (d + whose_least (whose_of whose)) (d + 1 + names_here (names_of names.now))) ≡ capped (d + result) }
{
    let least = match whose {
        Whose::OfStmt => 1,
        Whose::OfFor(_) => 2,
    };
    least.max(names.here().saturating_add(1))
}

// The least levels below the open statements, where a parenthesis comes.
fn opening_levels(opening: &Opening) -> u32
    ensures { (s : Opens) → levels_here (opening_state opening.now s) ≡ levels s + result }
{
    2
}

// The least levels below the open statements.
fn levels_below(stack: &Stack, focus: &Focus) -> u32
    ensures { capped (levels_here (state_of focus.now (stack_of stack.now))) ≡ capped (levels (stack_of stack.now) + result) }
{
    match focus {
        Focus::Need => stack.extra(),
        Focus::Awaits(_) => stack.extra(),
        Focus::Have(_) => 1,
        Focus::EndStmt(_) => 1,
        Focus::Opens(opening) => 2,
        Focus::Reading(inner, at, _) => least(inner, at).saturating_add(1),
        Focus::Maybe(part) => optional_levels(part),
        Focus::Declaring(_, _, names, whose) => declaring_levels(names, *whose),
        Focus::Variable(_, _, _) => 2,
        Focus::Label(_, _, _) => 1,
    }
}

/// The depth of what has to come at least, where 1 is that of a function's block. 4294967295 stands for all numbers from
/// there on.
pub fn here(stack: &Stack, focus: &Focus) -> u32
    ensures { result ≡ capped (levels_here (state_of focus.now (stack_of stack.now))) }
{
    stack.depth().saturating_add(levels_below(stack, focus))
}
