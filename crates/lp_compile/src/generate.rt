//! The program of a unit that has tables, before it is verified.
ghost use Rattle.std.specs.Prelude.{◌≡◌, ◌≢◌, MatchResult, map};
ghost use Rattle.lp_tree.specs.UnitView.{item_of};
ghost use Rattle.lp_language.specs.Resolve.{own_variables};
ghost use Rattle.lp_isa.specs.Programs.{own_functions};
ghost use Rattle.lp_codegen_expr.specs.Clear.{Spares};
ghost use Rattle.lp_codegen_expr.specs.declared.code.GenFault.TheVariants.{Unclear};
ghost use Rattle.lp_codegen_layout.specs.Laid.{plan_of};
ghost use Rattle.lp_codegen_unit.specs.Stands.{IsClearUnit};
ghost use Rattle.lp_unit_laws.specs.Versions.{variables_in};
ghost use Rattle.lp_compile.specs.Translated.{IsGenerated};

use crate::heights::greatest_height;
use lp_code::listed::Listed;
use lp_code::name::Name;
use lp_code::program::RawProgram;
use lp_code::tables::Tables;
use lp_codegen_expr::code::{GenFault, counted};
use lp_codegen_layout::layout::layout_of_tables;
use lp_codegen_unit::unit::gen_unit;
use lp_tree::unit::Item;
use std::alloc::Global;

// How many variables parents have together.
fn variables_of(parents: &[Tables]) -> Result<u32, GenFault>
    ensures { MatchResult result (λ n. n ≡ variables_in parents.now) (λ f. f ≢ Unclear) }
{
    let mut total = 0usize;
    for parent in parents {
        match total.checked_add(parent.vars.as_slice().len()) {
            Some(sum) => total = sum,
            None => return Err(GenFault::TooLarge),
        }
    }
    counted(total)
}

/// The program of a unit with these tables, parents' tables and names of simul efuns. It is not verified. A unit that is
/// clear is refused for want of memory or room alone. Takes time in proportion to the unit and the tables.
pub fn generate(
    alloc: Global,
    items: &Vec<Item>,
    tables: Tables,
    parents: &[Tables],
    simuls: &[Name],
) -> Result<RawProgram, GenFault>
    ensures { MatchResult result (IsGenerated (map item_of items.now.items) tables parents.now simuls.now) (Spares (IsClearUnit (plan_of tables parents.now simuls.now) (own_functions (map item_of items.now.items)) (own_variables (map item_of items.now.items)))) }
{
    let layout = layout_of_tables(alloc, &tables, parents, simuls)?;
    let first = variables_of(parents)?;
    let unit = gen_unit(alloc, items, first, layout)?;
    let max_height = greatest_height(unit.instrs.as_slice())?;
    Ok(RawProgram {
        instrs: Listed::from_vec(unit.instrs),
        consts: Listed::from_vec(unit.texts),
        switches: Listed::from_vec(unit.switches),
        funs: Listed::from_vec(unit.funs),
        tables,
        max_height,
    })
}
