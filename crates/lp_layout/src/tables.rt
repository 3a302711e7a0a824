//! Tables.
ghost use Rattle.std.specs.Prelude.{◌≡◌, ◌++◌, [], IfOk, MatchOption, OnOk, map, true, false};
ghost use Rattle.lp_tree.specs.UnitView.{item_of};
ghost use Rattle.lp_layout.specs.Layout.{AreInside, IsSpelled, laid_tables, parts_before, plain_pragmas};
ghost use Rattle.lp_layout.specs.LayoutFaults.{is_too_large, limits};

use crate::own::functions;
use crate::rows::rows;
use crate::variables::variables;
use lp_code::listed::Listed;
use lp_code::slots::Slots;
use lp_code::tables::{Slot, Tables, VarRow};
use lp_tree::path::FilePath;
use lp_tree::pragma::Pragmas;
use lp_tree::unit::Item;
use lp_values::id::ProgId;
use std::alloc::{AllocError, Global};

// The most functions, variables and parts of a version with its parents.
const MOST_NAMES: usize = 65535;

fn add_parts(parts: &mut Vec<ProgId>, more: &[ProgId]) -> Result<(), AllocError>
    ensures { OnOk result (parts.new.items ≡ parts.old.items ++ more.now) }
{
    for part in more {
        parts.push(*part)?;
    }
    Ok(())
}

// The versions of the parents' parts.
fn parts(alloc: Global, parents: &[Tables]) -> Result<Vec<ProgId>, AllocError>
    ensures { IfOk result (λ v. v.items ≡ parts_before parents.now) }
{
    let mut parts = Vec::new(alloc);
    for parent in parents {
        add_parts(&mut parts, parent.parts.as_slice())?;
    }
    Ok(parts)
}

fn tables_of(
    alloc: Global,
    parts: Vec<ProgId>,
    vars: Vec<VarRow>,
    rows: Vec<Slot>,
) -> Result<Tables, AllocError>
    ensures { IfOk result (λ t. t ≡ record { path = []; parents = []; parts = parts.items; slots = rows.items; vars = vars.items; pragmas = plain_pragmas }) }
{
    Ok(Tables {
        path: FilePath::from_str(alloc, "")?,
        parents: Listed::from_vec(Vec::new(alloc)),
        parts: Listed::from_vec(parts),
        slots: Slots::from_vec(alloc, rows)?,
        vars: Listed::from_vec(vars),
        pragmas: Pragmas::new(),
    })
}

/// The tables of a unit, or None where it has too many names.
pub(crate) fn tables(
    alloc: Global,
    items: &[Item],
    parents: &[Tables],
) -> Result<Option<Tables>, AllocError>
    requires { AreInside parents.now }
    ensures { IfOk result (λ o. IsSpelled (map item_of items.now) → MatchOption o (is_too_large limits (map item_of items.now) parents.now ≡ true) (λ t. (is_too_large limits (map item_of items.now) parents.now ≡ false) × (t ≡ laid_tables (map item_of items.now) parents.now))) }
{
    let parts = parts(alloc, parents)?;
    if parts.len() >= MOST_NAMES || functions(items) > MOST_NAMES {
        return Ok(None);
    }
    let total = parts.len() as u16;
    let vars = variables(alloc, items, parents, total)?;
    if vars.len() > MOST_NAMES {
        return Ok(None);
    }
    let rows = rows(alloc, items, parents, total)?;
    if rows.len() > MOST_NAMES {
        return Ok(None);
    }
    Ok(Some(tables_of(alloc, parts, vars, rows)?))
}
