//! The code of the functions of a unit.
ghost use Rattle.std.specs.Prelude.{◌≡◌, ◌≢◌, ◌∷◌, [], IfOk, List, MatchResult, map};
ghost use Rattle.lp_tree.specs.declared.keyword.Modifier.{Modifier};
ghost use Rattle.lp_tree.specs.StatementView.{stmt_of, stmt_trees};
ghost use Rattle.lp_tree.specs.UnitView.{item_of};
ghost use Rattle.lp_isa.specs.Programs.{own_functions};
ghost use Rattle.lp_codegen_expr.specs.Drafts.{draft_of};
ghost use Rattle.lp_codegen_expr.specs.Clear.{Spares};
ghost use Rattle.lp_codegen_expr.specs.Names.{layout_of};
ghost use Rattle.lp_codegen_flow.specs.Clear.{IsClearFun};
ghost use Rattle.lp_codegen_unit.specs.Rows.{IsRow};
ghost use Rattle.lp_codegen_unit.specs.Stands.{AreClear, FunctionsStand, OneStands, function_of, option_list};

use crate::letters::name_of;
use crate::rows::{add_row, locals_count, params_count};
use crate::slots::slots_in_all;
use lp_code::program::FunRow;
use lp_codegen_expr::code::{Code, GenFault, counted};
use lp_codegen_expr::scope::Scope;
use lp_codegen_flow::fun::gen_fun;
use lp_tree::chars::Chars;
use lp_tree::stmt::Stmt;
use lp_tree::unit::{Item, Param};
use std::alloc::{AllocError, Global};

// The names of parameters, which are a function's first locals.
fn names_of(alloc: Global, params: &[Param]) -> Result<Vec<Chars>, AllocError>
    ensures { IfOk result (λ v. v.items ≡ map (λ p. p.name) params.now) }
{
    let mut names = Vec::with_capacity(alloc, params.len())?;
    for param in params {
        names.push(param.name.copy()?)?;
    }
    Ok(names)
}

// The row of a function whose code begins at a place.
fn fun_row(
    alloc: Global,
    name: &Chars,
    params: &[Param],
    stmts: &Vec<Stmt>,
    from: u32,
) -> Result<FunRow, GenFault>
    ensures { MatchResult result (λ r. (ms : List Modifier) → IsRow (function_of ms name.now params.now (stmt_trees (map stmt_of stmts.now.items))) from r) (λ f. f ≢ GenFault.Unclear) }
{
    let count = params_count(params.len())?;
    let locals = slots_in_all(stmts, count as u32)?;
    Ok(FunRow {
        name: name_of(alloc, name)?,
        from,
        params: count,
        locals: locals_count(locals)?,
    })
}

/// The code of a function, behind what is there, with its row. Afterwards the locals of the scope are its parameters. What is
/// clear is refused for want of memory or room alone.
fn gen_one(
    alloc: Global,
    name: &Chars,
    params: &[Param],
    stmts: &Vec<Stmt>,
    scope: &mut Scope,
    into: &mut Code,
) -> Result<FunRow, GenFault>
    ensures { MatchResult result (λ r. (ms : List Modifier) → OneStands (function_of ms name.now params.now (stmt_trees (map stmt_of stmts.now.items))) r scope.old scope.new (draft_of into.old) (draft_of into.new)) (Spares (IsClearFun (layout_of scope.old.layout) (map (λ p. p.name) params.now) (stmt_trees (map stmt_of stmts.now.items)))) }
{
    let from = into.here()?;
    let row = fun_row(alloc, name, params, stmts, from)?;
    scope.locals = names_of(alloc, params)?;
    gen_fun(stmts, scope, into)?;
    Ok(row)
}

/// The code of the function that an item declares, if it does, with its row.
fn gen_item(
    alloc: Global,
    item: &Item,
    scope: &mut Scope,
    into: &mut Code,
) -> Result<Option<FunRow>, GenFault>
    ensures { MatchResult result (λ r. FunctionsStand (own_functions (item_of item.now ∷ [])) (option_list r) scope.old scope.new (draft_of into.old) (draft_of into.new)) (Spares (AreClear (layout_of scope.old.layout) (own_functions (item_of item.now ∷ [])))) }
{
    match item {
        Item::Inherit { .. } => Ok(None),
        Item::Proto { .. } => Ok(None),
        Item::Fun {
            name,
            params,
            body,
            ..
        } => {
            let row = gen_one(alloc, name, params.as_slice(), &body.stmts, scope, into)?;
            Ok(Some(row))
        }
        Item::Var { .. } => Ok(None),
    }
}

/// The code of the functions that these items declare, one behind another, with their rows in the same order. Afterwards
/// nothing is said of the locals of the scope.
pub(crate) fn gen_functions(
    alloc: Global,
    items: &Vec<Item>,
    scope: &mut Scope,
    into: &mut Code,
) -> Result<Vec<FunRow>, GenFault>
    ensures { MatchResult result (λ v. FunctionsStand (own_functions (map item_of items.now.items)) v.items scope.old scope.new (draft_of into.old) (draft_of into.new)) (Spares (AreClear (layout_of scope.old.layout) (own_functions (map item_of items.now.items)))) }
{
    let mut rows = Vec::new(alloc);
    for item in items {
        let row = gen_item(alloc, item, scope, into)?;
        add_row(&mut rows, row)?;
    }
    Ok(rows)
}
