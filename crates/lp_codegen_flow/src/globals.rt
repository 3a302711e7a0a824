//! The code of the initialisers of a file's variables.
ghost use Rattle.std.specs.Prelude.{◌∷◌, [], List, MatchResult, map, option_map};
ghost use Rattle.lp_tree.specs.declared.keyword.Modifier.{Modifier};
ghost use Rattle.lp_tree.specs.TreeView.{tree_of};
ghost use Rattle.lp_tree.specs.StatementView.{declarator_of};
ghost use Rattle.lp_tree.specs.UnitView.{item_of};
ghost use Rattle.lp_language.specs.Resolve.{own_variables};
ghost use Rattle.lp_codegen_expr.specs.Names.{layout_of};
ghost use Rattle.lp_codegen_expr.specs.Clear.{Spares};
ghost use Rattle.lp_codegen_expr.specs.Drafts.{draft_of};
ghost use Rattle.lp_codegen_flow.specs.Clear.{AreClearVariables, IsClearIf};
ghost use Rattle.lp_codegen_flow.specs.Initialisers.{AddsBare, Initialises, of_initialiser, variables_of};

use crate::clears::past;
use lp_codegen_expr::code::{Code, GenFault};
use lp_codegen_expr::expr::gen_expr;
use lp_codegen_expr::scope::Scope;
use lp_instr::instr::Instr;
use lp_tree::expr::Expr;
use lp_tree::stmt::Declarator;
use lp_tree::unit::Item;

/// The code of the initialiser of the variable at a place, where it has one.
fn gen_initialiser(
    value: &Option<Expr>,
    place: u32,
    scope: &Scope,
    into: &mut Code,
) -> Result<(), GenFault>
    ensures { MatchResult result (λ _. AddsBare scope.now (of_initialiser place (option_map tree_of value.now)) (draft_of into.old) (draft_of into.new)) (Spares (IsClearIf (layout_of scope.now.layout) scope.now.locals.items (option_map tree_of value.now))) }
{
    match value {
        Some(e) => {
            gen_expr(e, scope, into)?;
            into.put_all(&[Instr::SetGlobal(place), Instr::Pop])?;
            Ok(())
        }
        None => Ok(()),
    }
}

/// The code of the initialisers of what is declared together, from a place on. The answer is the place behind it.
fn gen_declared(
    ones: &Vec<Declarator>,
    first: u32,
    scope: &Scope,
    into: &mut Code,
) -> Result<u32, GenFault>
    ensures { MatchResult result (λ k. (ms : List Modifier) → Initialises (variables_of ms (map declarator_of ones.now.items)) first k scope.now (draft_of into.old) (draft_of into.new)) (Spares ((ms : List Modifier) → AreClearVariables (layout_of scope.now.layout) scope.now.locals.items (variables_of ms (map declarator_of ones.now.items)))) }
{
    let mut place = first;
    for one in ones {
        gen_initialiser(&one.value, place, scope, into)?;
        place = past(place, 1)?;
    }
    Ok(place)
}

/// The code of the initialisers of the variables that an item declares, from a place on. The answer is the place behind
/// them.
fn gen_item(item: &Item, first: u32, scope: &Scope, into: &mut Code) -> Result<u32, GenFault>
    ensures { MatchResult result (λ k. Initialises (own_variables (item_of item.now ∷ [])) first k scope.now (draft_of into.old) (draft_of into.new)) (Spares (AreClearVariables (layout_of scope.now.layout) scope.now.locals.items (own_variables (item_of item.now ∷ [])))) }
{
    match item {
        Item::Inherit { .. } => Ok(first),
        Item::Proto { .. } => Ok(first),
        Item::Fun { .. } => Ok(first),
        Item::Var { ones, .. } => {
            let next = gen_declared(ones, first, scope, into)?;
            Ok(next)
        }
    }
}

/// The code of the initialisers of the variables that some items declare, from a place on. The answer is the place behind
/// them.
pub fn gen_items(
    items: &Vec<Item>,
    first: u32,
    scope: &Scope,
    into: &mut Code,
) -> Result<u32, GenFault>
    ensures { MatchResult result (λ k. Initialises (own_variables (map item_of items.now.items)) first k scope.now (draft_of into.old) (draft_of into.new)) (Spares (AreClearVariables (layout_of scope.now.layout) scope.now.locals.items (own_variables (map item_of items.now.items)))) }
{
    let mut place = first;
    for item in items {
        place = gen_item(item, place, scope, into)?;
    }
    Ok(place)
}
