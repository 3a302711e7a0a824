//! Rows of variables.
ghost use Rattle.std.specs.Prelude.{◌≡◌, ◌≤◌, ◌+◌, ◌++◌, ◌∷◌, [], IfOk, IsAscii, OnOk, map};
ghost use Rattle.lp_tree.specs.StatementView.{declarator_of};
ghost use Rattle.lp_tree.specs.UnitView.{item_of};
ghost use Rattle.lp_layout.specs.Layout.{AreInside, AreSpelled, AreVariablesIn, inherited_rows, laid_variables, numbered_row, own_rows, parts_of, row_moved, variable_names};

use crate::spelled::{bits, name_of};
use lp_code::tables::{Tables, VarRow};
use lp_tree::keyword::Base;
use lp_tree::stmt::Declarator;
use lp_tree::types::TypeName;
use lp_tree::unit::Item;
use std::alloc::{AllocError, Global};

fn moved(alloc: Global, first: u16, row: &VarRow) -> Result<VarRow, AllocError>
    requires { first + row.now.part ≤ 65535 }
    ensures { IfOk result (λ r. r ≡ row_moved first row.now) }
{
    Ok(VarRow {
        name: row.name.copy(alloc)?,
        part: first + row.part,
        mods: row.mods,
        kind: row.kind,
    })
}

// Adds the variables of a parent whose first part has another place.
fn add_moved(
    alloc: Global,
    rows: &mut Vec<VarRow>,
    first: u16,
    parts: usize,
    inherited: &[VarRow],
) -> Result<(), AllocError>
    requires rows { AreVariablesIn parts inherited.now }
    requires room { first + parts ≤ 65535 }
    ensures { OnOk result (rows.new.items ≡ rows.old.items ++ map (row_moved first) inherited.now) }
{
    for row in inherited {
        rows.push(moved(alloc, first, row)?)?;
    }
    Ok(())
}

// Adds the variables of the parents.
fn add_inherited(
    alloc: Global,
    rows: &mut Vec<VarRow>,
    parents: &[Tables],
) -> Result<(), AllocError>
    requires inside { AreInside parents.now }
    requires room { parts_of parents.now ≤ 65535 }
    ensures { OnOk result (rows.new.items ≡ rows.old.items ++ inherited_rows parents.now 0) }
{
    let mut first = 0;
    for parent in parents {
        let parts = parent.parts.as_slice().len();
        add_moved(alloc, rows, first, parts, parent.vars.as_slice())?;
        first += parts as u16;
    }
    Ok(())
}

fn numbered_row(
    alloc: Global,
    part: u16,
    number: u16,
    base: Base,
    one: &Declarator,
) -> Result<VarRow, AllocError>
    ensures { IfOk result (λ r. IsAscii one.now.name → r ≡ numbered_row part number base (declarator_of one.now)) }
{
    let kind = TypeName {
        base,
        stars: one.stars,
    };
    Ok(VarRow {
        name: name_of(alloc, &one.name)?,
        part,
        mods: number,
        kind,
    })
}

// Adds the variables of a declaration, whose modifiers have a number.
fn add_ones(
    alloc: Global,
    rows: &mut Vec<VarRow>,
    part: u16,
    number: u16,
    base: Base,
    ones: &[Declarator],
) -> Result<(), AllocError>
    ensures { OnOk result (AreSpelled (map (λ d. d.name) (map declarator_of ones.now)) → rows.new.items ≡ rows.old.items ++ map (numbered_row part number base) (map declarator_of ones.now)) }
{
    for one in ones {
        rows.push(numbered_row(alloc, part, number, base, one)?)?;
    }
    Ok(())
}

fn add_item(alloc: Global, rows: &mut Vec<VarRow>, part: u16, item: &Item) -> Result<(), AllocError>
    ensures { OnOk result (AreSpelled (variable_names (item_of item.now ∷ [])) → rows.new.items ≡ rows.old.items ++ own_rows part (item_of item.now ∷ [])) }
{
    match item {
        Item::Var {
            mods,
            base,
            ones,
            ..
        } => add_ones(alloc, rows, part, bits(mods), *base, ones),
        _ => Ok(()),
    }
}

// Adds a file's own variables.
fn add_own(
    alloc: Global,
    rows: &mut Vec<VarRow>,
    part: u16,
    items: &[Item],
) -> Result<(), AllocError>
    ensures { OnOk result (AreSpelled (variable_names (map item_of items.now)) → rows.new.items ≡ rows.old.items ++ own_rows part (map item_of items.now)) }
{
    for item in items {
        add_item(alloc, rows, part, item)?;
    }
    Ok(())
}

/// The rows of variables. `total` is the number of all parts of the parents.
pub(crate) fn variables(
    alloc: Global,
    items: &[Item],
    parents: &[Tables],
    total: u16,
) -> Result<Vec<VarRow>, AllocError>
    requires inside { AreInside parents.now }
    requires total { total ≡ parts_of parents.now }
    ensures { IfOk result (λ v. AreSpelled (variable_names (map item_of items.now)) → v.items ≡ laid_variables (map item_of items.now) parents.now 0) }
{
    let mut rows = Vec::new(alloc);
    add_inherited(alloc, &mut rows, parents)?;
    add_own(alloc, &mut rows, total, items)?;
    Ok(rows)
}
