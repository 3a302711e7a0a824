//! What the layout looks at in statements, in the order of tokens.
ghost use Rattle.std.specs.Prelude.{◌≡◌, ◌+◌, ◌++◌, ◌∷◌, [], OnOk, map, nat_lt, option_map};
ghost use Rattle.lp_tree.specs.Pieces.{parts_of};
ghost use Rattle.lp_tree.specs.StatementView.{declarator_of, init_of, local_of, stmt_of, stmt_trees};
ghost use Rattle.lp_tree.specs.TreeView.{tree_of};
ghost use Rattle.lp_layout.specs.LayoutFaults.{each_locals, second_locals};
ghost use Rattle.lp_layout.specs.Pieces.{Locals, Runs, init_pieces, local_pieces, locals_in, ones_pieces, parts_pieces, piece_of, seen, stmt_pieces, stmts_pieces, value_pieces};

use crate::piece::Piece;
use lp_tree::expr::Expr;
use lp_tree::stmt::{Declarator, Each, Init, Local, Part, Stmt};
use std::alloc::AllocError;

fn add_expr<'a>(e: &'a Expr, into: &mut Vec<Piece<'a>>) -> Result<(), AllocError>
    ensures { OnOk result (seen into.new.items ≡ seen into.old.items ++ Runs (tree_of e.now) ∷ []) }
{
    into.push(Piece::Runs(e))?;
    Ok(())
}

fn add_locals(count: usize, into: &mut Vec<Piece<'_>>) -> Result<(), AllocError>
    ensures { OnOk result (seen into.new.items ≡ seen into.old.items ++ Locals count ∷ []) }
{
    into.push(Piece::Locals(count))?;
    Ok(())
}

fn add_value<'a>(value: &'a Option<Expr>, into: &mut Vec<Piece<'a>>) -> Result<(), AllocError>
    ensures { OnOk result (seen into.new.items ≡ seen into.old.items ++ value_pieces (option_map tree_of value.now)) }
{
    match value {
        None => Ok(()),
        Some(e) => {
            add_expr(e, into)?;
            Ok(())
        }
    }
}

/// Adds what declarators are set to.
pub(crate) fn add_ones<'a>(
    ones: &'a [Declarator],
    into: &mut Vec<Piece<'a>>,
) -> Result<(), AllocError>
    ensures { OnOk result (seen into.new.items ≡ seen into.old.items ++ ones_pieces (map declarator_of ones.now)) }
{
    for one in ones {
        add_value(&one.value, into)?;
    }
    Ok(())
}

fn add_local<'a>(local: &'a Local, into: &mut Vec<Piece<'a>>) -> Result<(), AllocError>
    ensures { OnOk result (seen into.new.items ≡ seen into.old.items ++ local_pieces (local_of local.now)) }
{
    add_locals(local.ones.len(), into)?;
    add_ones(local.ones.as_slice(), into)?;
    Ok(())
}

fn add_init<'a>(init: &'a Init, into: &mut Vec<Piece<'a>>) -> Result<(), AllocError>
    ensures { OnOk result (seen into.new.items ≡ seen into.old.items ++ init_pieces (init_of init.now)) }
{
    match init {
        Init::Nothing => Ok(()),
        Init::Declares(local) => {
            add_local(local, into)?;
            Ok(())
        }
        Init::Runs(e) => {
            add_expr(e, into)?;
            Ok(())
        }
    }
}

// Adds the parts of a `for` before its body.
fn add_head<'a>(
    init: &'a Init,
    test: &'a Option<Expr>,
    step: &'a Option<Expr>,
    into: &mut Vec<Piece<'a>>,
) -> Result<(), AllocError>
    ensures { OnOk result (seen into.new.items ≡ seen into.old.items ++ (init_pieces (init_of init.now) ++ (value_pieces (option_map tree_of test.now) ++ value_pieces (option_map tree_of step.now)))) }
{
    add_init(init, into)?;
    add_value(test, into)?;
    add_value(step, into)?;
    Ok(())
}

// 1 where a variable of a `foreach` has a type.
fn each_locals(each: &Each) -> usize
    ensures { result ≡ each_locals each.now }
{
    match each.type_name {
        None => 0,
        Some(_) => 1,
    }
}

fn second_locals(each: &Option<Each>) -> usize
    ensures { result ≡ second_locals each.now }
{
    match each {
        None => 0,
        Some(each) => each_locals(each),
    }
}

// Adds the parts of a `foreach` before its body.
fn add_over<'a>(
    first: &Each,
    second: &Option<Each>,
    over: &'a Expr,
    into: &mut Vec<Piece<'a>>,
) -> Result<(), AllocError>
    ensures { OnOk result (seen into.new.items ≡ seen into.old.items ++ Locals (each_locals first.now + second_locals second.now) ∷ Runs (tree_of over.now) ∷ []) }
{
    add_locals(each_locals(first) + second_locals(second), into)?;
    add_expr(over, into)?;
    Ok(())
}

// Adds the pieces of a statement.
#[cycle(pieces)]
fn add_stmt<'a>(stmt: &'a Stmt, into: &mut Vec<Piece<'a>>) -> Result<(), AllocError>
    ensures { OnOk result (seen into.new.items ≡ seen into.old.items ++ stmt_pieces (stmt_of stmt.now)) }
{
    match stmt {
        Stmt::Block { stmts, .. } => {
            add_stmts(stmts, into)?;
            Ok(())
        }
        Stmt::Empty { .. } => Ok(()),
        Stmt::Run { of, .. } => {
            add_expr(of, into)?;
            Ok(())
        }
        Stmt::Declares { local, .. } => {
            add_local(local, into)?;
            Ok(())
        }
        Stmt::If { test, yes, no, .. } => {
            add_expr(test, into)?;
            add_stmt(yes, into)?;
            match no {
                None => Ok(()),
                Some(no) => {
                    add_stmt(no, into)?;
                    Ok(())
                }
            }
        }
        Stmt::While { test, body, .. } => {
            add_expr(test, into)?;
            add_stmt(body, into)?;
            Ok(())
        }
        Stmt::DoWhile { body, test, .. } => {
            add_stmt(body, into)?;
            add_expr(test, into)?;
            Ok(())
        }
        Stmt::For {
            init,
            test,
            step,
            body,
            ..
        } => {
            add_head(init, test, step, into)?;
            add_stmt(body, into)?;
            Ok(())
        }
        Stmt::Foreach {
            first,
            second,
            over,
            body,
            ..
        } => {
            add_over(first, second, over, into)?;
            add_stmt(body, into)?;
            Ok(())
        }
        Stmt::Switch { on, parts, .. } => {
            add_expr(on, into)?;
            add_parts(parts, into)?;
            Ok(())
        }
        Stmt::Break { .. } => Ok(()),
        Stmt::Continue { .. } => Ok(()),
        Stmt::Return { value, .. } => {
            add_value(value, into)?;
            Ok(())
        }
    }
}

/// Adds the pieces of statements, in the order of tokens.
#[cycle(pieces)]
pub(crate) fn add_stmts<'a>(stmts: &'a [Stmt], into: &mut Vec<Piece<'a>>) -> Result<(), AllocError>
    ensures { OnOk result (seen into.new.items ≡ seen into.old.items ++ stmts_pieces (stmt_trees (map stmt_of stmts.now))) }
{
    for stmt in stmts {
        add_stmt(stmt, into)?;
    }
    Ok(())
}

// Adds the pieces of the parts of a `switch`.
#[cycle(pieces)]
fn add_parts<'a>(parts: &'a [Part<Stmt>], into: &mut Vec<Piece<'a>>) -> Result<(), AllocError>
    ensures { OnOk result (seen into.new.items ≡ seen into.old.items ++ parts_pieces (parts_of parts.now)) }
{
    for part in parts {
        if let Part::Stmt(stmt) = part {
            add_stmt(stmt, into)?;
        }
    }
    Ok(())
}

/// Whether pieces declare more locals than a number.
pub(crate) fn are_more(pieces: &[Piece<'_>], most: usize) -> bool
    ensures { result ≡ nat_lt most (locals_in (seen pieces.now)) }
{
    let mut left = most;
    for piece in pieces {
        let count = locals_of(piece);
        if count > left {
            return true;
        }
        left -= count;
    }
    false
}

fn locals_of(piece: &Piece<'_>) -> usize
    ensures { result ≡ locals_in (piece_of piece.now ∷ []) }
{
    match piece {
        Piece::Locals(count) => *count,
        Piece::Runs(_) => 0,
    }
}
