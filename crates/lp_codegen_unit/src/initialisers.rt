//! The code of the initialisers of a unit's variables.
ghost use Rattle.std.specs.Prelude.{◌≡◌, MatchResult, is_some, map};
ghost use Rattle.std.specs.List.{list_any};
ghost use Rattle.lp_tree.specs.UnitView.{item_of};
ghost use Rattle.lp_language.specs.Resolve.{own_variables};
ghost use Rattle.lp_codegen_expr.specs.Clear.{Spares};
ghost use Rattle.lp_codegen_expr.specs.Drafts.{draft_of};
ghost use Rattle.lp_codegen_expr.specs.Names.{layout_of};
ghost use Rattle.lp_codegen_flow.specs.Clear.{AreClearVariables};
ghost use Rattle.lp_codegen_unit.specs.Rows.{declares_one, initialisers as behind};
ghost use Rattle.lp_codegen_unit.specs.Stands.{RowsBare, option_list};

use crate::rows::init_row;
use lp_code::program::FunRow;
use lp_codegen_expr::code::{Code, GenFault};
use lp_codegen_expr::scope::Scope;
use lp_codegen_flow::fun::gen_initialisers;
use lp_tree::stmt::Declarator;
use lp_tree::unit::Item;
use std::alloc::Global;

// Whether one of what is declared together has an initialiser.
fn has_value(ones: &[Declarator]) -> bool
    ensures { result ≡ list_any (λ d. is_some d.value) ones.now }
{
    ones.iter().any(|one| one.value.is_some())
}

// Whether an item declares a variable with an initialiser.
fn item_has_one(item: &Item) -> bool
    ensures { result ≡ declares_one item.now }
{
    match item {
        Item::Inherit { .. } => false,
        Item::Proto { .. } => false,
        Item::Fun { .. } => false,
        Item::Var { ones, .. } => has_value(ones.as_slice()),
    }
}

// Whether a variable that these items declare has an initialiser.
fn has_initialiser(items: &[Item]) -> bool
    ensures { result ≡ list_any declares_one items.now }
{
    items.iter().any(|item| item_has_one(item))
}

/// The code of the initialisers of the variables that these items declare, where there are some, with their row; the first
/// variable stands at a place. The scope has no locals.
pub(crate) fn gen_last(
    alloc: Global,
    items: &Vec<Item>,
    first: u32,
    scope: &Scope,
    into: &mut Code,
) -> Result<Option<FunRow>, GenFault>
    ensures { MatchResult result (λ r. RowsBare scope.now (behind (own_variables (map item_of items.now.items)) first) (option_list r) (draft_of into.old) (draft_of into.new)) (Spares (AreClearVariables (layout_of scope.now.layout) scope.now.locals.items (own_variables (map item_of items.now.items)))) }
{
    if !has_initialiser(items.as_slice()) {
        return Ok(None);
    }
    let from = into.here()?;
    gen_initialisers(items, first, scope, into)?;
    Ok(Some(init_row(alloc, from)?))
}
