//! The code of statements.
ghost use Rattle.std.specs.Prelude.{ℕ, MatchResult, Some, false, map, option_map, take};
ghost use Rattle.lp_tree.specs.TreeView.{tree_of};
ghost use Rattle.lp_tree.specs.Statements.{Block as BlockTree, DoWhile as DoTree, For as ForTree, Foreach as ForeachTree, MoreStmts, NoStmt, Switch as SwitchTree, While as WhileTree};
ghost use Rattle.lp_tree.specs.Pieces.{parts_of};
ghost use Rattle.lp_tree.specs.StatementView.{init_of, stmt_of, stmt_trees};
ghost use Rattle.lp_codegen_expr.specs.Names.{layout_of};
ghost use Rattle.lp_codegen_expr.specs.Clear.{IsClear, Spares};
ghost use Rattle.lp_codegen_expr.specs.Drafts.{draft_of};
ghost use Rattle.lp_codegen_flow.specs.Clear.{AreClearParts, AreClearStmts, IsClearOver, IsClearStmt, IsClearTurns};
ghost use Rattle.lp_codegen_flow.specs.Flows.{AllStand, Hidden, OverStands, Stands, TurnsStand};
ghost use Rattle.lp_codegen_flow.specs.Switches.{PartsStand, TableStands};

use crate::clears::{Which, clear_parts, gen_clears, past};
use crate::labels::{Labels, add_switch, gen_label};
use crate::led::lead;
use crate::plain::{
    each_vars, gen_break, gen_continue, gen_eaches, gen_init, gen_local, gen_return, gen_run,
    gen_run_if, gen_test,
};
use lp_codegen_expr::code::{Code, GenFault, counted};
use lp_codegen_expr::expr::gen_expr;
use lp_codegen_expr::scope::Scope;
use lp_instr::instr::Instr;
use lp_tree::expr::Expr;
use lp_tree::stmt::{Each, Init, Part, Stmt};

/// The code of an expression before which the locals from a place on are not seen. They stay.
fn gen_hidden(e: &Expr, seen: usize, scope: &mut Scope, into: &mut Code) -> Result<(), GenFault>
    ensures { MatchResult result (λ _. Hidden (tree_of e.now) seen scope.old scope.new (draft_of into.old) (draft_of into.new)) (Spares (IsClear (layout_of scope.old.layout) (take seen scope.old.locals.items) (tree_of e.now))) }
{
    if seen < scope.locals.len() {
        let mut hidden = scope.locals.split_off(seen)?;
        gen_expr(e, scope, into)?;
        scope.locals.append(&mut hidden)?;
        Ok(())
    } else {
        gen_expr(e, scope, into)?;
        Ok(())
    }
}

/// The code of a statement, after what is there. Behind it the scope has the locals that are seen there. A clear statement
/// is refused for want of memory or room alone; then nothing is said of the scope.
#[cycle(stmt)]
pub fn gen_stmt(s: &Stmt, scope: &mut Scope, into: &mut Code) -> Result<(), GenFault>
    ensures { MatchResult result (λ _. Stands (stmt_of s.now) scope.old scope.new (draft_of into.old) (draft_of into.new)) (Spares (IsClearStmt (layout_of scope.old.layout) scope.old.locals.items (stmt_of s.now))) }
{
    match s {
        Stmt::Block { stmts, .. } => {
            gen_block(stmts, scope, into)?;
            Ok(())
        }
        Stmt::Empty { .. } => Ok(()),
        Stmt::Run { of, .. } => {
            gen_run(of, scope, into)?;
            Ok(())
        }
        Stmt::Declares { local, .. } => {
            gen_local(local, scope, into)?;
            Ok(())
        }
        Stmt::If { test, yes, no, .. } => match no {
            Some(other) => {
                gen_expr(test, scope, into)?;
                let jump = into.here()?;
                into.put(Instr::JumpIfZero(0))?;
                gen_stmt(yes, scope, into)?;
                let over = into.here()?;
                into.put(Instr::Jump(0))?;
                let second = into.here()?;
                into.fill(jump, Instr::JumpIfZero(second));
                gen_stmt(other, scope, into)?;
                let end = into.here()?;
                into.fill(over, Instr::Jump(end));
                Ok(())
            }
            None => {
                gen_expr(test, scope, into)?;
                let jump = into.here()?;
                into.put(Instr::JumpIfZero(0))?;
                gen_stmt(yes, scope, into)?;
                let end = into.here()?;
                into.fill(jump, Instr::JumpIfZero(end));
                Ok(())
            }
        },
        Stmt::While { test, body, .. } => {
            gen_while(body, test, scope, into)?;
            Ok(())
        }
        Stmt::DoWhile { body, test, .. } => {
            gen_do(body, test, scope, into)?;
            Ok(())
        }
        Stmt::For {
            init,
            test,
            step,
            body,
            ..
        } => {
            gen_for(body, init, test, step, scope, into)?;
            Ok(())
        }
        Stmt::Foreach {
            first,
            second,
            over,
            body,
            ..
        } => {
            gen_foreach(body, first, second, over, scope, into)?;
            Ok(())
        }
        Stmt::Switch { on, parts, .. } => {
            gen_switch(parts, on, scope, into)?;
            Ok(())
        }
        Stmt::Break { .. } => {
            gen_break(into)?;
            Ok(())
        }
        Stmt::Continue { .. } => {
            gen_continue(into)?;
            Ok(())
        }
        Stmt::Return { value, .. } => {
            gen_return(value, scope, into)?;
            Ok(())
        }
    }
}

/// The code of a block. Behind it the locals before it are seen.
#[cycle(stmt)]
fn gen_block(stmts: &Vec<Stmt>, scope: &mut Scope, into: &mut Code) -> Result<(), GenFault>
    ensures { MatchResult result (λ _. (line : ℕ) → Stands (BlockTree line (stmt_trees (map stmt_of stmts.now.items))) scope.old scope.new (draft_of into.old) (draft_of into.new)) (Spares ((line : ℕ) → IsClearStmt (layout_of scope.old.layout) scope.old.locals.items (BlockTree line (stmt_trees (map stmt_of stmts.now.items))))) }
{
    let seen = scope.locals.len();
    gen_stmts(stmts, scope, into)?;
    scope.locals.truncate(seen);
    Ok(())
}

/// The code of the statements of a block. Clear ones are refused for want of memory or room alone.
#[cycle(stmt)]
pub fn gen_stmts(stmts: &Vec<Stmt>, scope: &mut Scope, into: &mut Code) -> Result<(), GenFault>
    ensures { MatchResult result (λ _. AllStand (stmt_trees (map stmt_of stmts.now.items)) scope.old scope.new (draft_of into.old) (draft_of into.new)) (Spares (AreClearStmts (layout_of scope.old.layout) scope.old.locals.items (stmt_trees (map stmt_of stmts.now.items)))) }
{
    for s in stmts {
        gen_next(s, scope, into)?;
    }
    Ok(())
}

/// The code of a statement of a block: before it the locals become 0 whose declaration it may pass over.
#[cycle(stmt)]
fn gen_next(s: &Stmt, scope: &mut Scope, into: &mut Code) -> Result<(), GenFault>
    ensures { MatchResult result (λ _. AllStand (MoreStmts (stmt_of s.now) NoStmt) scope.old scope.new (draft_of into.old) (draft_of into.new)) (Spares (IsClearStmt (layout_of scope.old.layout) scope.old.locals.items (stmt_of s.now))) }
{
    let first = counted(scope.locals.len())?;
    gen_clears(s, Which::Loose, first, into)?;
    gen_stmt(s, scope, into)?;
    Ok(())
}

/// The code of a `while`.
#[cycle(stmt)]
fn gen_while(body: &Stmt, test: &Expr, scope: &mut Scope, into: &mut Code) -> Result<(), GenFault>
    ensures { MatchResult result (λ _. (line : ℕ) → Stands (WhileTree line (tree_of test.now) (stmt_of body.now)) scope.old scope.new (draft_of into.old) (draft_of into.new)) (Spares ((line : ℕ) → IsClearStmt (layout_of scope.old.layout) scope.old.locals.items (WhileTree line (tree_of test.now) (stmt_of body.now)))) }
{
    let seen = scope.locals.len();
    let start = into.here()?;
    into.put(Instr::Jump(0))?;
    let turn = into.here()?;
    into.put(Instr::LoopTurn)?;
    gen_stmt(body, scope, into)?;
    let again = into.here()?;
    into.fill(start, Instr::Jump(again));
    gen_hidden(test, seen, scope, into)?;
    into.put(Instr::JumpIfNotZero(turn))?;
    let out = into.here()?;
    lead(&mut into.instrs, turn, out, Some(again));
    Ok(())
}

/// The code of a `do`.
#[cycle(stmt)]
fn gen_do(body: &Stmt, test: &Expr, scope: &mut Scope, into: &mut Code) -> Result<(), GenFault>
    ensures { MatchResult result (λ _. (line : ℕ) → Stands (DoTree line (stmt_of body.now) (tree_of test.now)) scope.old scope.new (draft_of into.old) (draft_of into.new)) (Spares ((line : ℕ) → IsClearStmt (layout_of scope.old.layout) scope.old.locals.items (DoTree line (stmt_of body.now) (tree_of test.now)))) }
{
    let turn = into.here()?;
    into.put(Instr::LoopTurn)?;
    gen_stmt(body, scope, into)?;
    let again = into.here()?;
    gen_expr(test, scope, into)?;
    into.put(Instr::JumpIfNotZero(turn))?;
    let out = into.here()?;
    lead(&mut into.instrs, turn, out, Some(again));
    Ok(())
}

/// The code of a `for`. Behind it the locals before it are seen.
#[cycle(stmt)]
fn gen_for(
    body: &Stmt,
    init: &Init,
    test: &Option<Expr>,
    step: &Option<Expr>,
    scope: &mut Scope,
    into: &mut Code,
) -> Result<(), GenFault>
    ensures { MatchResult result (λ _. (line : ℕ) → Stands (ForTree line (init_of init.now) (option_map tree_of test.now) (option_map tree_of step.now) (stmt_of body.now)) scope.old scope.new (draft_of into.old) (draft_of into.new)) (Spares ((line : ℕ) → IsClearStmt (layout_of scope.old.layout) scope.old.locals.items (ForTree line (init_of init.now) (option_map tree_of test.now) (option_map tree_of step.now) (stmt_of body.now)))) }
{
    let seen = scope.locals.len();
    gen_init(init, scope, into)?;
    gen_turns(body, test, step, scope, into)?;
    scope.locals.truncate(seen);
    Ok(())
}

/// The code of a `for` behind its first part.
#[cycle(stmt)]
fn gen_turns(
    body: &Stmt,
    test: &Option<Expr>,
    step: &Option<Expr>,
    scope: &mut Scope,
    into: &mut Code,
) -> Result<(), GenFault>
    ensures { MatchResult result (λ _. TurnsStand (option_map tree_of test.now) (option_map tree_of step.now) (stmt_of body.now) scope.old scope.new (draft_of into.old) (draft_of into.new)) (Spares (IsClearTurns (layout_of scope.old.layout) scope.old.locals.items (option_map tree_of test.now) (option_map tree_of step.now) (stmt_of body.now))) }
{
    let seen = scope.locals.len();
    let start = into.here()?;
    into.put(Instr::Jump(0))?;
    let turn = into.here()?;
    into.put(Instr::LoopTurn)?;
    gen_stmt(body, scope, into)?;
    scope.locals.truncate(seen);
    let stepped = into.here()?;
    gen_run_if(step, scope, into)?;
    let tested = into.here()?;
    into.fill(start, Instr::Jump(tested));
    gen_test(test, turn, scope, into)?;
    let out = into.here()?;
    lead(&mut into.instrs, turn, out, Some(stepped));
    Ok(())
}

/// The code of a `foreach`. Behind it the locals before it are seen.
#[cycle(stmt)]
fn gen_foreach(
    body: &Stmt,
    first: &Each,
    second: &Option<Each>,
    over: &Expr,
    scope: &mut Scope,
    into: &mut Code,
) -> Result<(), GenFault>
    ensures { MatchResult result (λ _. (line : ℕ) → Stands (ForeachTree line first.now second.now (tree_of over.now) (stmt_of body.now)) scope.old scope.new (draft_of into.old) (draft_of into.new)) (Spares ((line : ℕ) → IsClearStmt (layout_of scope.old.layout) scope.old.locals.items (ForeachTree line first.now second.now (tree_of over.now) (stmt_of body.now)))) }
{
    let seen = scope.locals.len();
    gen_expr(over, scope, into)?;
    into.put(Instr::EachBegin(each_vars(second)))?;
    gen_over(body, first, second, scope, into)?;
    scope.locals.truncate(seen);
    Ok(())
}

/// The code of a `foreach` behind its beginning. Its locals are still seen.
#[cycle(stmt)]
fn gen_over(
    body: &Stmt,
    first: &Each,
    second: &Option<Each>,
    scope: &mut Scope,
    into: &mut Code,
) -> Result<(), GenFault>
    ensures { MatchResult result (λ _. OverStands first.now second.now (stmt_of body.now) scope.old scope.new (draft_of into.old) (draft_of into.new)) (Spares (IsClearOver (layout_of scope.old.layout) scope.old.locals.items first.now second.now (stmt_of body.now))) }
{
    let start = into.here()?;
    into.put(Instr::Jump(0))?;
    let turn = into.here()?;
    into.put(Instr::LoopTurn)?;
    gen_eaches(first, second, scope, into)?;
    gen_stmt(body, scope, into)?;
    let next = into.here()?;
    let leave = past(next, 2)?;
    let end = past(next, 4)?;
    into.fill(start, Instr::Jump(next));
    into.put_all(&[
        Instr::EachNext(turn, each_vars(second)),
        Instr::Jump(end),
        Instr::Pop,
        Instr::Pop,
    ])?;
    lead(&mut into.instrs, turn, leave, Some(next));
    Ok(())
}

/// The code of a `switch`. Behind it the locals before it are seen.
#[cycle(stmt)]
fn gen_switch(
    parts: &Vec<Part<Stmt>>,
    on: &Expr,
    scope: &mut Scope,
    into: &mut Code,
) -> Result<(), GenFault>
    ensures { MatchResult result (λ _. (line : ℕ) → Stands (SwitchTree line (tree_of on.now) (parts_of parts.now.items)) scope.old scope.new (draft_of into.old) (draft_of into.new)) (Spares ((line : ℕ) → IsClearStmt (layout_of scope.old.layout) scope.old.locals.items (SwitchTree line (tree_of on.now) (parts_of parts.now.items)))) }
{
    let seen = scope.locals.len();
    gen_expr(on, scope, into)?;
    let first = counted(seen)?;
    clear_parts(parts, first, into)?;
    gen_table(parts, scope, into)?;
    scope.locals.truncate(seen);
    Ok(())
}

/// The code of a `switch` behind its value. The locals of its parts are still seen.
#[cycle(stmt)]
fn gen_table(parts: &Vec<Part<Stmt>>, scope: &mut Scope, into: &mut Code) -> Result<(), GenFault>
    ensures { MatchResult result (λ _. TableStands parts.now.items scope.old scope.new (draft_of into.old) (draft_of into.new)) (Spares (AreClearParts (layout_of scope.old.layout) scope.old.locals.items false (parts_of parts.now.items))) }
{
    let start = into.here()?;
    into.put(Instr::Switch(0))?;
    let first = into.here()?;
    let labels = gen_parts(parts, scope, into)?;
    let end = into.here()?;
    lead(&mut into.instrs, first, end, None);
    let row = add_switch(labels, end, into)?;
    into.fill(start, Instr::Switch(row));
    Ok(())
}

/// The code of the parts of a `switch`, with their labels.
#[cycle(stmt)]
fn gen_parts(
    parts: &Vec<Part<Stmt>>,
    scope: &mut Scope,
    into: &mut Code,
) -> Result<Labels, GenFault>
    ensures { MatchResult result (λ ks. PartsStand parts.now.items ks scope.old scope.new (draft_of into.old) (draft_of into.new)) (Spares (AreClearParts (layout_of scope.old.layout) scope.old.locals.items false (parts_of parts.now.items))) }
{
    let mut labels = Labels {
        cases: Vec::new(*into.instrs.allocator()),
        other: None,
    };
    for part in parts {
        match part {
            Part::Label(label) => {
                gen_label(label, &mut labels, into)?;
            }
            Part::Stmt(s) => {
                gen_next(s, scope, into)?;
            }
        }
    }
    Ok(labels)
}
