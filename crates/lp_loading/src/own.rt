//! Rows of a file's own functions in its program.
ghost use Rattle.std.specs.Prelude.{◌≡◌, ◌++◌, OnOk, false, filter, is_some, slice_get};
ghost use Rattle.std.specs.Option.{option_copied};
ghost use Rattle.lp_layout.specs.Layout.{slot_named};
ghost use Rattle.lp_part_laws.specs.Parts.{reached_in};
ghost use Rattle.lp_plan_laws.specs.Tables.{reached_by};
ghost use Rattle.lp_targets.specs.Callees.{is_callable_number, wanted_row};
ghost use Rattle.lp_targets.specs.declared.wants.Want.TheVariants as wants;
ghost use Rattle.lp_loading.specs.Rows.{NamesAreOwn, OpenIsCallable, is_open as may_call, is_there as there, open_names, own_name, own_part as last_part};

use lp_code::name::Name;
use lp_code::program::{FunRow, RawProgram};
use lp_code::tables::Slot;
use std::alloc::{AllocError, Global};

/// The law of open functions: a program tells which functions of the version that it fits every object may call.
pub fn law_open()
    ensures { OpenIsCallable }
{}

/// The law of names: the rows of a program that are those of functions have the names of its file's functions, in order.
pub fn law_names()
    ensures { NamesAreOwn }
{}

/// A row of a program's tables, by its place.
fn slot_at(raw: &RawProgram, k: usize) -> Option<&Slot>
    ensures { option_copied result ≡ slice_get raw.now.tables.slots k }
{
    raw.tables.slots.as_slice().get(k)
}

/// The row of a name in a program's tables, found by their map.
fn row_named<'a>(raw: &'a RawProgram, name: &str) -> Option<&'a Slot>
    ensures { option_copied result ≡ slot_named raw.now.tables.slots name.now }
{
    match raw.tables.slots.place(name) {
        Some(k) => slot_at(raw, k),
        None => None,
    }
}

/// The last part of a program, in which its own file stands.
fn own_part(raw: &RawProgram) -> usize
    ensures { result ≡ last_part raw.now }
{
    raw.tables.parts.as_slice().len().saturating_sub(1)
}

/// Whether a row of tables leads to the function with a number in a part.
fn is_there(part: usize, k: usize, slot: &Slot) -> bool
    ensures { result ≡ there part k (reached_by slot.now) }
{
    if slot.fun == 65535 {
        return false;
    }
    slot.part as usize == part && slot.fun as usize == k
}

/// Whether the row with a number is that of a function.
fn is_own_row(raw: &RawProgram, row: &FunRow, k: usize) -> bool
    ensures { result ≡ there (last_part raw.now) k (reached_in (slot_named raw.now.tables.slots row.now.name)) }
{
    match row_named(raw, row.name.as_str()) {
        Some(slot) => is_there(own_part(raw), k, slot),
        None => false,
    }
}

/// Whether a function with these modifiers may be called from outside by another object.
fn is_callable(mods: u16) -> bool
    ensures { result ≡ is_callable_number false mods }
{
    let is_private = mods % 2 == 1;
    let is_protected = (mods / 2) % 2 == 1;
    let is_static = (mods / 8) % 2 == 1;
    !is_private && !is_protected && !is_static
}

/// Whether a row of tables is that of a function that every object may call.
fn is_open_row(slot: &Slot) -> bool
    ensures { result ≡ is_some (wanted_row (wants.Callable false) slot.now) }
{
    if is_callable(slot.mods) {
        slot.fun != 65535
    } else {
        false
    }
}

/// Whether every object may call the function of a name.
fn is_open(whole: &RawProgram, name: &str) -> bool
    ensures { result ≡ may_call whole.now name.now }
{
    match row_named(whole, name) {
        Some(slot) => is_open_row(slot),
        None => false,
    }
}

/// Puts the name of a row behind others, where it is that of a function that every object may call in an object of a program.
fn put_name(
    alloc: Global,
    whole: &RawProgram,
    raw: &RawProgram,
    row: &FunRow,
    k: usize,
    names: &mut Vec<Name>,
) -> Result<(), AllocError>
    ensures { OnOk result (names.new.items ≡ names.old.items ++ filter (may_call whole.now) (own_name raw.now k row.now)) }
{
    if is_own_row(raw, row, k) && is_open(whole, row.name.as_str()) {
        names.push(row.name.copy(alloc)?)?;
    }
    Ok(())
}

/// Puts the names of all functions of a program behind others that every object may call in an object of another program.
pub(crate) fn put_names(
    alloc: Global,
    whole: &RawProgram,
    raw: &RawProgram,
    names: &mut Vec<Name>,
) -> Result<(), AllocError>
    ensures { OnOk result (names.new.items ≡ names.old.items ++ open_names whole.now raw.now) }
{
    let rows = raw.funs.as_slice();
    for k in 0..rows.len() {
        put_name(alloc, whole, raw, &rows[k], k, names)?;
    }
    Ok(())
}
