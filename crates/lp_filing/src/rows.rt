//! The saved variables of a program, by the rows of its table.
ghost use Rattle.std.specs.Prelude.{◌≡◌, ◌<◌, ◌+◌, ◌++◌, ◌∷◌, IfOk, List, OnOk, map};
ghost use Rattle.lp_code.specs.declared.tables.VarRow.{VarRow as Row};
ghost use Rattle.lp_meaning.specs.FileEfuns.{named_value, value_at as value_at_of};
ghost use Rattle.lp_types_expr.specs.Signatures.{has_bit as has_bit_of};
ghost use Rattle.lp_filing.specs.Rows.{is_unsaved_number, saved_rows};

use lp_code::tables::VarRow;
use lp_values::text::Text;
use lp_values::value::Value;
use std::alloc::{AllocError, Global};

/// Whether the bit with a value is set.
fn has_bit(value: u16, mods: u16) -> bool
    requires { 0 < value }
    ensures { result ≡ has_bit_of value mods }
{
    (mods / value) % 2 == 1
}

/// Whether modifiers say that a variable is not saved: `static` or `nosave`.
fn is_unsaved(mods: u16) -> bool
    ensures { result ≡ is_unsaved_number mods }
{
    has_bit(8, mods) || has_bit(16, mods)
}

/// The place of a row is put behind others, where its variable is saved.
fn add_place(places: &mut Vec<usize>, i: usize, row: &VarRow) -> Result<(), AllocError>
    ensures { OnOk result ((rest : List Row) → places.new.items ++ map (λ x. x.place) (saved_rows (i + 1) rest) ≡ places.old.items ++ map (λ x. x.place) (saved_rows i (row.now ∷ rest))) }
{
    if is_unsaved(row.mods) {
        return Ok(());
    }
    Ok(places.push(i)?)
}

/// The places of the saved variables.
pub(crate) fn saved_places(alloc: Global, rows: &[VarRow]) -> Result<Vec<usize>, AllocError>
    ensures { IfOk result (λ v. v.items ≡ map (λ x. x.place) (saved_rows 0 rows.now)) }
{
    let mut places = Vec::new(alloc);
    for (i, row) in rows.iter().enumerate() {
        add_place(&mut places, i, row)?;
    }
    Ok(places)
}

/// The name of a row is put behind others, where its variable is saved.
fn add_name(alloc: Global, names: &mut Vec<Text>, i: usize, row: &VarRow) -> Result<(), AllocError>
    ensures { OnOk result ((rest : List Row) → names.new.items ++ map (λ x. x.name) (saved_rows (i + 1) rest) ≡ names.old.items ++ map (λ x. x.name) (saved_rows i (row.now ∷ rest))) }
{
    if is_unsaved(row.mods) {
        return Ok(());
    }
    let name = Text::from_str(alloc, row.name.as_str())?;
    Ok(names.push(name)?)
}

/// The names of the saved variables.
pub(crate) fn saved_names(alloc: Global, rows: &[VarRow]) -> Result<Vec<Text>, AllocError>
    ensures { IfOk result (λ v. v.items ≡ map (λ x. x.name) (saved_rows 0 rows.now)) }
{
    let mut names = Vec::new(alloc);
    for (i, row) in rows.iter().enumerate() {
        add_name(alloc, &mut names, i, row)?;
    }
    Ok(names)
}

/// The value at a place, or 0 where none is.
fn value_at(values: &[Value], i: usize) -> Result<Value, AllocError>
    ensures { IfOk result (λ v. v ≡ value_at_of values.now i) }
{
    match values.get(i) {
        Some(v) => v.copy(),
        None => Ok(Value::Int(0)),
    }
}

/// The name and the value of a row are put behind others, where its variable is saved.
fn add_value(
    alloc: Global,
    named: &mut Vec<(Text, Value)>,
    i: usize,
    row: &VarRow,
    values: &[Value],
) -> Result<(), AllocError>
    ensures { OnOk result ((rest : List Row) → named.new.items ++ map (named_value values.now) (saved_rows (i + 1) rest) ≡ named.old.items ++ map (named_value values.now) (saved_rows i (row.now ∷ rest))) }
{
    if is_unsaved(row.mods) {
        return Ok(());
    }
    let name = Text::from_str(alloc, row.name.as_str())?;
    let value = value_at(values, i)?;
    Ok(named.push((name, value))?)
}

/// The saved variables with their names and these values.
pub(crate) fn named_values(
    alloc: Global,
    rows: &[VarRow],
    values: &[Value],
) -> Result<Vec<(Text, Value)>, AllocError>
    ensures { IfOk result (λ v. v.items ≡ map (named_value values.now) (saved_rows 0 rows.now)) }
{
    let mut named = Vec::new(alloc);
    for (i, row) in rows.iter().enumerate() {
        add_value(alloc, &mut named, i, row, values)?;
    }
    Ok(named)
}
