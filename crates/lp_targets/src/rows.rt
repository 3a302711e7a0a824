//! Rows of tables that a name means, and the functions that they reach.
ghost use Rattle.std.specs.Prelude.{◌≡◌, ◌&&◌, ◌≤◌, length, slice_get};
ghost use Rattle.std.specs.Option.{option_copied};
ghost use Rattle.lp_layout.specs.Layout.{slot_named};
ghost use Rattle.lp_part_laws.specs.Parts.{reached_in};
ghost use Rattle.lp_plan_laws.specs.Tables.{reached_by};
ghost use Rattle.lp_types_expr.specs.Signatures.{has_bit, has_function, is_private_number};
ghost use Rattle.lp_world.specs.Stands.{reached_of};
ghost use Rattle.lp_targets.specs.Callees.{is_callable_number, wanted_in, wanted_row};

use crate::wants::Want;
use lp_code::program::RawProgram;
use lp_code::tables::Slot;
use lp_world::targets::FunAt;

/// A row of a program's table, by its place.
pub(crate) fn slot_at(code: &RawProgram, slot: u32) -> Option<&Slot>
    ensures { option_copied result ≡ slice_get code.now.tables.slots slot }
{
    code.tables.slots.as_slice().get(slot as usize)
}

/// The row of a name in a program's tables, found by their map.
pub(crate) fn row_named<'a>(whole: &'a RawProgram, name: &str) -> Option<&'a Slot>
    requires { length whole.now.tables.slots ≤ 65535 }
    ensures { option_copied result ≡ slot_named whole.now.tables.slots name.now }
{
    match whole.tables.slot(name) {
        Some(k) => slot_at(whole, k as u32),
        None => None,
    }
}

/// The function of a row, if it has one.
pub(crate) fn reached(slot: &Slot) -> Option<FunAt>
    ensures { reached_of result ≡ reached_by slot.now }
{
    if slot.fun == 65535 {
        return None;
    }
    Some(FunAt {
        part: slot.part,
        fun: slot.fun,
    })
}

/// Whether a row is that of a private function.
pub(crate) fn is_hidden(slot: &Slot) -> bool
    ensures { result ≡ (has_function slot.now && is_private_number slot.now.mods) }
{
    slot.fun != 65535 && slot.mods % 2 == 1
}

/// Whether a function with these modifiers may be called from outside.
fn is_callable(is_self: bool, mods: u16) -> bool
    ensures { result ≡ is_callable_number is_self mods }
{
    let is_private = mods % 2 == 1;
    let is_protected = (mods / 2) % 2 == 1;
    let is_static = (mods / 8) % 2 == 1;
    !is_private && !is_protected && (is_self || !is_static)
}

/// The function of a row, where it is wanted.
fn wanted_row(slot: &Slot, want: Want) -> Option<FunAt>
    ensures { reached_of result ≡ wanted_row want slot.now }
{
    match want {
        Want::Any => reached(slot),
        Want::NotPrivate => {
            if slot.mods % 2 == 1 {
                None
            } else {
                reached(slot)
            }
        }
        Want::Callable(is_self) => {
            if is_callable(is_self, slot.mods) {
                reached(slot)
            } else {
                None
            }
        }
    }
}

/// The function that a name reaches in a program, where it is wanted.
pub(crate) fn wanted(whole: &RawProgram, name: &str, want: Want) -> Option<FunAt>
    requires { length whole.now.tables.slots ≤ 65535 }
    ensures { reached_of result ≡ wanted_in want (slot_named whole.now.tables.slots name.now) }
{
    match row_named(whole, name) {
        Some(slot) => wanted_row(slot, want),
        None => None,
    }
}

/// The function that a name reaches in a program.
pub(crate) fn named(whole: &RawProgram, name: &str) -> Option<FunAt>
    requires { length whole.now.tables.slots ≤ 65535 }
    ensures { reached_of result ≡ reached_in (slot_named whole.now.tables.slots name.now) }
{
    match row_named(whole, name) {
        Some(slot) => reached(slot),
        None => None,
    }
}
