//! The code of a unit.
ghost use Rattle.std.specs.Prelude.{MatchResult, map};
ghost use Rattle.lp_tree.specs.UnitView.{item_of};
ghost use Rattle.lp_language.specs.Resolve.{own_variables};
ghost use Rattle.lp_isa.specs.Programs.{own_functions};
ghost use Rattle.lp_codegen_expr.specs.Clear.{Spares};
ghost use Rattle.lp_codegen_expr.specs.Names.{layout_of};
ghost use Rattle.lp_codegen_unit.specs.Stands.{AreRowsNamed, IsClearUnit, IsUnitCode};

use crate::finish::{UnitCode, finish};
use crate::functions::gen_functions;
use crate::initialisers::gen_last;
use crate::rows::add_row;
use lp_codegen_expr::code::{Code, GenFault};
use lp_codegen_expr::scope::{Layout, Scope};
use lp_codegen_expr::texts::Texts;
use lp_tree::unit::Item;
use std::alloc::Global;

/// The code of a unit with these items: of its functions in the order of its text, and behind them of its initialisers, where
/// a variable has one. What is known of its names is the layout; the first of its own variables has the place `first` among
/// those of its version. An instruction names each row of its list of switches. What is clear is refused for want of memory or
/// room alone. Takes time in proportion to the unit.
pub fn gen_unit(
    alloc: Global,
    items: &Vec<Item>,
    first: u32,
    layout: Layout,
) -> Result<UnitCode, GenFault>
    ensures { MatchResult result (λ u. IsUnitCode (layout_of layout) (own_functions (map item_of items.now.items)) (own_variables (map item_of items.now.items)) first u × AreRowsNamed u) (Spares (IsClearUnit (layout_of layout) (own_functions (map item_of items.now.items)) (own_variables (map item_of items.now.items)))) }
{
    let mut scope = Scope {
        layout,
        locals: Vec::new(alloc),
    };
    let mut into = Code {
        instrs: Vec::new(alloc),
        texts: Texts::new(alloc),
        switches: Vec::new(alloc),
    };
    let mut rows = gen_functions(alloc, items, &mut scope, &mut into)?;
    scope.locals.clear();
    let last = gen_last(alloc, items, first, &scope, &mut into)?;
    add_row(&mut rows, last)?;
    let unit = finish(alloc, into, rows)?;
    Ok(unit)
}
