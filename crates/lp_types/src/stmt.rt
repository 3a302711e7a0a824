//! Faults of statements.
ghost use Rattle.std.specs.Prelude.{◌≡◌, [], ◌++◌, OnOk, map};
ghost use Rattle.lp_tree.specs.Pieces.{parts_of};
ghost use Rattle.lp_tree.specs.StatementView.{stmt_of, stmt_trees};
ghost use Rattle.lp_types_expr.specs.Surroundings.{around_of};
ghost use Rattle.lp_types.specs.TypeFaults.{behind, parts_faults, stmt_faults, stmts_faults};
ghost use Rattle.lp_types.specs.Pieces.{IsWithin};

use crate::declaring::local_faults;
use crate::labels::{Labels, label_faults};
use crate::looping::{declare_variables, head_faults, over_faults};
use crate::simple::{return_faults, run_faults, test_faults};
use lp_tree::stmt::{Part, Stmt};
use lp_types_expr::around::Surroundings;
use lp_types_expr::assign::assignments;
use lp_types_expr::fault::FaultAt;
use lp_types_expr::scopes::Scopes;
use lp_types_expr::walk::expr_faults;
use std::alloc::{AllocError, Global};

// Adds faults behind others.
fn add_all(faults: &mut Vec<FaultAt>, mut more: Vec<FaultAt>) -> Result<(), AllocError>
    ensures { OnOk result (faults.new.items ≡ faults.old.items ++ more.items) }
{
    faults.append(&mut more)?;
    Ok(())
}

/// Adds the faults of a statement, and declares what it declares in the block round it.
#[cycle(stmt)]
pub(crate) fn stmt_faults(
    alloc: Global,
    around: &Surroundings<'_>,
    scopes: &mut Scopes,
    stmt: &Stmt,
    faults: &mut Vec<FaultAt>,
) -> Result<(), AllocError>
    ensures faults { OnOk result (faults.new.items ≡ faults.old.items ++ stmt_faults (around_of around.now) scopes.old (stmt_of stmt.now)) }
    ensures scope { OnOk result (scopes.new ≡ behind scopes.old (stmt_of stmt.now)) }
{
    match stmt {
        Stmt::Block { stmts, .. } => {
            let mark = scopes.enter();
            stmts_faults(alloc, around, scopes, stmts, faults)?;
            scopes.leave(mark);
            Ok(())
        }
        Stmt::Empty { .. } => Ok(()),
        Stmt::Run { line, of } => {
            run_faults(around, scopes, *line, of, faults)?;
            Ok(())
        }
        Stmt::Declares { line, local } => {
            local_faults(around, scopes, *line, local, faults)?;
            Ok(())
        }
        Stmt::If {
            line,
            test,
            yes,
            no,
        } => {
            test_faults(around, scopes, *line, test, faults)?;
            stmt_faults(alloc, around, scopes, yes, faults)?;
            match no {
                None => Ok(()),
                Some(no) => {
                    stmt_faults(alloc, around, scopes, no, faults)?;
                    Ok(())
                }
            }
        }
        Stmt::While { line, test, body } => {
            test_faults(around, scopes, *line, test, faults)?;
            stmt_faults(alloc, around, scopes, body, faults)?;
            Ok(())
        }
        Stmt::DoWhile { line, body, test } => {
            let mut inner = Vec::new(alloc);
            stmt_faults(alloc, around, scopes, body, &mut inner)?;
            assignments(around, scopes, test, *line, faults)?;
            add_all(faults, inner)?;
            expr_faults(around, scopes, test, faults)?;
            Ok(())
        }
        Stmt::For {
            line,
            init,
            test,
            step,
            body,
        } => {
            let mark = scopes.enter();
            head_faults(around, scopes, *line, init, test, step, faults)?;
            stmt_faults(alloc, around, scopes, body, faults)?;
            scopes.leave(mark);
            Ok(())
        }
        Stmt::Foreach {
            line,
            first,
            second,
            over,
            body,
        } => {
            over_faults(around, scopes, *line, first, second, over, faults)?;
            let mark = scopes.enter();
            declare_variables(scopes, first, second)?;
            stmt_faults(alloc, around, scopes, body, faults)?;
            scopes.leave(mark);
            Ok(())
        }
        Stmt::Switch { line, on, parts } => {
            test_faults(around, scopes, *line, on, faults)?;
            let mark = scopes.enter();
            parts_faults(alloc, around, scopes, parts, faults)?;
            scopes.leave(mark);
            Ok(())
        }
        Stmt::Break { .. } => Ok(()),
        Stmt::Continue { .. } => Ok(()),
        Stmt::Return { line, value } => {
            return_faults(around, scopes, *line, value, faults)?;
            Ok(())
        }
    }
}

/// Adds the faults of statements one after another, each of which sees what those before it declare.
#[cycle(stmt)]
pub(crate) fn stmts_faults(
    alloc: Global,
    around: &Surroundings<'_>,
    scopes: &mut Scopes,
    stmts: &Vec<Stmt>,
    faults: &mut Vec<FaultAt>,
) -> Result<(), AllocError>
    ensures faults { OnOk result (faults.new.items ≡ faults.old.items ++ stmts_faults (around_of around.now) scopes.old (stmt_trees (map stmt_of stmts.now.items))) }
    ensures scope { OnOk result (IsWithin scopes.old scopes.new) }
{
    'all: for stmt in stmts {
        stmt_faults(alloc, around, scopes, stmt, faults)?;
    }
    Ok(())
}

// Adds the faults of the parts of a switch.
#[cycle(stmt)]
fn parts_faults(
    alloc: Global,
    around: &Surroundings<'_>,
    scopes: &mut Scopes,
    parts: &Vec<Part<Stmt>>,
    faults: &mut Vec<FaultAt>,
) -> Result<(), AllocError>
    ensures faults { OnOk result (faults.new.items ≡ faults.old.items ++ parts_faults (around_of around.now) scopes.old [] (parts_of parts.now.items)) }
    ensures scope { OnOk result (IsWithin scopes.old scopes.new) }
{
    let mut labels = Labels::new(alloc);
    'all: for part in parts {
        match part {
            Part::Label(label) => label_faults(alloc, &mut labels, label, faults)?,
            Part::Stmt(stmt) => stmt_faults(alloc, around, scopes, stmt, faults)?,
        }
    }
    Ok(())
}
