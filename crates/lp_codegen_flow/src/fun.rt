//! The code of functions.
ghost use Rattle.std.specs.Prelude.{MatchResult, map};
ghost use Rattle.lp_tree.specs.StatementView.{stmt_of, stmt_trees};
ghost use Rattle.lp_tree.specs.UnitView.{item_of};
ghost use Rattle.lp_language.specs.Resolve.{own_variables};
ghost use Rattle.lp_codegen_expr.specs.Clear.{Spares};
ghost use Rattle.lp_codegen_expr.specs.Drafts.{draft_of};
ghost use Rattle.lp_codegen_expr.specs.Names.{layout_of};
ghost use Rattle.lp_codegen_flow.specs.Clear.{AreClearVariables, IsClearFun};
ghost use Rattle.lp_codegen_flow.specs.Functions.{FunStands};
ghost use Rattle.lp_codegen_flow.specs.Initialisers.{InitialisersStand};

use crate::closed::are_closed;
use crate::globals::gen_items;
use crate::led::lead;
use crate::stmt::gen_stmts;
use lp_codegen_expr::code::{Code, GenFault};
use lp_codegen_expr::scope::Scope;
use lp_instr::instr::Instr;
use lp_tree::stmt::Stmt;
use lp_tree::unit::Item;

/// The code of a function with these statements, where the locals of the scope are its parameters. Behind its statements
/// it returns 0. A `break` or a `continue` that leaves nothing has no code. What is clear, and has no such, is refused for
/// want of memory or room alone.
pub fn gen_fun(stmts: &Vec<Stmt>, scope: &mut Scope, into: &mut Code) -> Result<(), GenFault>
    ensures { MatchResult result (λ _. FunStands (stmt_trees (map stmt_of stmts.now.items)) scope.old scope.new (draft_of into.old) (draft_of into.new)) (Spares (IsClearFun (layout_of scope.old.layout) scope.old.locals.items (stmt_trees (map stmt_of stmts.now.items)))) }
{
    if !are_closed(stmts, false, false) {
        return Err(GenFault::Unclear);
    }
    let seen = scope.locals.len();
    let from = into.here()?;
    gen_stmts(stmts, scope, into)?;
    into.put(Instr::ReturnZero)?;
    scope.locals.truncate(seen);
    // No jump is open. A reader of what was added need not know why.
    lead(&mut into.instrs, from, from, Some(from));
    Ok(())
}

/// The code of the initialisers of the variables that these items declare, as a function without parameters and locals,
/// where the first variable stands at a place. The scope has no locals. Behind the initialisers it returns 0. Where what
/// the variables are set to is clear, it is refused for want of memory or room alone.
pub fn gen_initialisers(
    items: &Vec<Item>,
    first: u32,
    scope: &Scope,
    into: &mut Code,
) -> Result<(), GenFault>
    ensures { MatchResult result (λ _. InitialisersStand (own_variables (map item_of items.now.items)) first scope.now (draft_of into.old) (draft_of into.new)) (Spares (AreClearVariables (layout_of scope.now.layout) scope.now.locals.items (own_variables (map item_of items.now.items)))) }
{
    let from = into.here()?;
    gen_items(items, first, scope, into)?;
    into.put(Instr::ReturnZero)?;
    // No jump is open here either.
    lead(&mut into.instrs, from, from, Some(from));
    Ok(())
}
