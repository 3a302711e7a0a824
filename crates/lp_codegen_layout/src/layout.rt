//! The layout of a version.
ghost use Rattle.std.specs.Prelude.{◌≡◌, IfOk};
ghost use Rattle.lp_codegen_expr.specs.Names.{layout_of};
ghost use Rattle.lp_codegen_layout.specs.Laid.{plan_of};

use crate::entry::{names_of, numbers_of};
use crate::letters::{names_of_names, names_of_rows};
use crate::parents::{path_names_of, rows_of, shown_of};
use crate::variables::seen_of;
use lp_code::name::Name;
use lp_code::tables::Tables;
use lp_codegen_expr::scope::Layout;
use std::alloc::{AllocError, Global};

/// What is known of the names of a version: from its own tables, those of its parents in the order of the inherits, and the
/// names of the simul efuns. Takes time in proportion to the rows, and to the ends of the parents' paths.
pub fn layout_of_tables(
    alloc: Global,
    own: &Tables,
    parents: &[Tables],
    simuls: &[Name],
) -> Result<Layout, AllocError>
    ensures { IfOk result (λ l. layout_of l ≡ plan_of own.now parents.now simuls.now) }
{
    let seen = seen_of(alloc, own)?;
    let shown = shown_of(alloc, parents)?;
    let paths = path_names_of(alloc, parents)?;
    Ok(Layout {
        globals: names_of(alloc, seen.as_slice())?,
        places: numbers_of(alloc, seen.as_slice())?,
        rows: names_of_rows(alloc, own.slots.as_slice())?,
        parents: rows_of(alloc, parents)?,
        inherited: names_of(alloc, shown.as_slice())?,
        inherited_from: numbers_of(alloc, shown.as_slice())?,
        parent_names: names_of(alloc, paths.as_slice())?,
        parent_numbers: numbers_of(alloc, paths.as_slice())?,
        simuls: names_of_names(alloc, simuls)?,
    })
}
